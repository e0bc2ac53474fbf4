// The analysis of a set: order by policy, response times, verdict.
#![tactic(auto)]

ghost use Rattle.std.specs.Prelude.{map, ◌≡◌};
ghost use Rattle.sheet.specs.Tasks.{task_in, records_of};
ghost use Rattle.analysis.specs.Answers.{blocker_code, code, analysed, set_analysis, sheet_analysis, set_decision, set_left, sheet_decision, sheet_left};
ghost use Rattle.analysis.specs.Misses.{set_miss};
ghost use Rattle.analysis.specs.Inside.Steps.{RightlyJudged};

mod delivery;
mod demand;
mod findings;
mod misses;
mod response;
mod verdicts;

use admission::Judged;
use sheet::{Refusal, Sheet, TaskSet};

// What the analysis says of a set: it holds, or the first task in priority order that does not pass, with its blocker.
#[derive(Debug, Clone, Copy, PartialEq, Eq)]
pub enum Verdict {
    Holds,
    Missed(u32, Option<u32>),
}

// The verdict, or the one refusal.
pub type Outcome = Result<Verdict, Refusal>;

// What the analysis finds of the task at a place of the priority order: its number, what the report prints of it, and, if it passes,
// its eight response times.
#[derive(Clone, Copy, Default)]
pub struct Finding {
    pub number: u32,
    pub period: u32,
    pub deadline: u32,
    pub frame_count: u32,
    pub blocked: u32,
    pub times: Option<[u32; Sheet::FRAME_ROOM]>,
}

// The verdict, how many tasks were analysed, and what was found of each, in priority order.
#[derive(Clone, Copy)]
pub struct Analysis {
    pub verdict: Verdict,
    pub task_count: u32,
    pub findings: [Finding; Sheet::TASK_ROOM],
}

// What is decided of tasks whose times go to lent numbers: the verdict, and how many tasks were analysed.
#[derive(Debug, Clone, Copy, PartialEq, Eq)]
pub struct Decision {
    pub verdict: Verdict,
    pub task_count: u32,
}

// Where a set misses first: the place in the priority order of the first task that does not pass, and its first frame without a response time.
#[derive(Debug, Clone, Copy, PartialEq, Eq)]
pub struct MissedFrame {
    pub place: u32,
    pub frame: u32,
}

impl Verdict {
    // The least number of a miss.
    pub const MISSES_FROM: u64 = 100;

    // How many numbers there are for a blocker, none included.
    pub const BLOCKERS: u64 = Sheet::MOST_TASKS as u64 + 1;
}

// 0 for holds, the number of a miss with its blocker, or the refusal's number.
pub fn code(outcome: Outcome) -> u64
    ensures { result ≡ code outcome }
{
    match outcome {
        Ok(Verdict::Holds) => 0,
        Ok(Verdict::Missed(task, blocker)) => {
            Verdict::MISSES_FROM + Verdict::BLOCKERS * (task as u64) + blocker_code(blocker) as u64
        }
        Err(refusal) => refusal.number() as u64,
    }
}

// The blocker's number; none has the number behind the last task's.
pub fn blocker_code(blocker: Option<u32>) -> u32
    ensures { result ≡ blocker_code blocker }
{
    blocker.unwrap_or(Sheet::MOST_TASKS)
}

// An admitted set: put in order and analysed place by place.
fn analysed(judged: Judged) -> Analysis
    requires { RightlyJudged judged }
    ensures { result ≡ analysed judged.set.policy (map task_in (records_of judged.set)) }
{
    let o = order::in_order(judged.set);
    let findings = findings::findings_of(&o, judged.shapes);
    Analysis {
        verdict: verdicts::verdict_of(&o, &findings),
        task_count: o.count,
        findings,
    }
}

// The analysis of a set by value.
pub fn analysis_of_set(set: TaskSet) -> Result<Analysis, Refusal>
    ensures { result ≡ set_analysis set }
{
    Ok(analysed(admission::admit(set)?))
}

// The analysis of a sheet.
pub fn analysis_of_sheet(bytes: &[u8]) -> Result<Analysis, Refusal>
    ensures { result ≡ sheet_analysis bytes.now }
{
    Ok(analysed(reader::admit_sheet(bytes)?))
}

// Analyses a set by value; its times go to lent numbers.
pub fn analyse_set(set: TaskSet, times: &mut [u32]) -> Result<Decision, Refusal>
    ensures { (result ≡ set_decision set times.old) × (times.new ≡ set_left set times.old) }
{
    delivery::deliver(analysis_of_set(set)?, times)
}

// Analyses a sheet; its times go to lent numbers.
pub fn analyse_sheet(bytes: &[u8], times: &mut [u32]) -> Result<Decision, Refusal>
    ensures { (result ≡ sheet_decision bytes.now times.old) × (times.new ≡ sheet_left bytes.now times.old) }
{
    delivery::deliver(analysis_of_sheet(bytes)?, times)
}

// The missed frame of a set by value; none, if it is turned away.
pub fn missed_frame(set: TaskSet) -> Option<MissedFrame>
    ensures { result ≡ set_miss set }
{
    let judged = admission::admit(set).ok()?;
    misses::first_of(&order::in_order(judged.set), judged.shapes)
}
