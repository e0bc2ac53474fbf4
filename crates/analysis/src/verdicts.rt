// The verdict: holds, or the first task in priority order that does not pass, with its blocker.
ghost use Rattle.std.specs.Prelude.{◌≡◌, ◌≤◌, ◌<◌, length, position};
ghost use Rattle.theory.specs.Analysis.{blocker, verdict};
ghost use Rattle.sheet.specs.Constants.{most_tasks};
ghost use Rattle.order.specs.Ordered.{tasks_in_order, numbers_of};
ghost use Rattle.analysis.specs.Times.{number_at, blocker_number, verdict_number};
ghost use Rattle.analysis.specs.Findings.{fails, findings_of};
ghost use Rattle.analysis.specs.declared.Verdict.TheVariants.{Missed};

use crate::{Finding, Verdict};
use order::Ordered;

// The answer that names the task at place p, and its blocker.
fn missed(o: &Ordered, p: usize) -> Verdict
    requires { (length (tasks_in_order o.now) ≤ most_tasks) × (p < length (tasks_in_order o.now)) }
    ensures { result ≡ Missed (number_at (numbers_of o.now) p) (blocker_number (numbers_of o.now) (blocker (tasks_in_order o.now) p)) }
{
    let places = o.in_use();
    let blocker = order::blocker_of(*o, p as u32).map(|q| places[q as usize].number);
    Verdict::Missed(places[p].number, blocker)
}

// The first place whose task does not pass.
fn first_failing(findings: &[Finding]) -> Option<usize>
    ensures { result ≡ position fails findings.now }
{
    findings.iter().position(|f| f.times.is_none())
}

// The set holds if all tasks pass.
pub fn verdict_of(o: &Ordered, findings: &[Finding]) -> Verdict
    requires { (length (tasks_in_order o.now) ≤ most_tasks) × (findings.now ≡ findings_of (numbers_of o.now) (tasks_in_order o.now)) }
    ensures { result ≡ verdict_number (numbers_of o.now) (verdict (tasks_in_order o.now)) }
{
    match first_failing(&findings[..o.in_use().len()]) {
        Some(p) => missed(o, p),
        None => Verdict::Holds,
    }
}
