// The times of an analysis put to lent numbers, in task-number order.
ghost use Rattle.std.specs.Prelude.{◌≡◌};
ghost use Rattle.analysis.specs.Inside.Numbered.{Numbered};
ghost use Rattle.analysis.specs.Inside.Delivery.{delivered_decision, delivered};

use crate::{Analysis, Decision};
use sheet::{Refusal, Sheet};

// Nothing is touched where there is no room for all times; of a task that does not pass all eight are 0.
pub fn deliver(a: Analysis, times: &mut [u32]) -> Result<Decision, Refusal>
    requires { Numbered a }
    ensures { (result ≡ delivered_decision a times.old) × (times.new ≡ delivered a times.old) }
{
    let count = a.task_count as usize;
    if times.len() < Sheet::FRAME_ROOM * count {
        return Err(Refusal::Room);
    }
    for f in &a.findings[..count] {
        let at = Sheet::FRAME_ROOM * f.number as usize;
        let row = f.times.unwrap_or([0; Sheet::FRAME_ROOM]);
        times[at..at + Sheet::FRAME_ROOM].copy_from_slice(&row);
    }
    Ok(Decision {
        verdict: a.verdict,
        task_count: a.task_count,
    })
}
