// The missed frame of an ordered set: of the first task that does not pass, the first without a response time.
ghost use Rattle.std.specs.Prelude.{◌≡◌};
ghost use Rattle.theory.specs.Tasks.{WellFormed};
ghost use Rattle.sheet.specs.Tasks.{task_in};
ghost use Rattle.order.specs.Ordered.{tasks_in_order};
ghost use Rattle.analysis.specs.Misses.{miss_in};
ghost use Rattle.analysis.specs.Inside.Demand.{Tallies};
ghost use Rattle.analysis.specs.Inside.Steps.{ShapesStand, without_to};

use crate::MissedFrame;
use crate::demand::Tally;
use crate::findings::tallies_of;
use crate::response::respond;
use admission::Shape;
use order::Ordered;
use sheet::{Sheet, Task};

// The first frame of a task without a response time.
fn frame_without(above: &[Tally], blocked: u32, task: Task) -> Option<u32>
    requires { Tallies above.now × WellFormed (task_in task) }
    ensures { (tallies : Tallies above.now) → result ≡ without_to tallies.tasks blocked (task_in task) }
{
    for k in 0..sheet::frame_count(task) {
        let deadline = sheet::deadline_of(task, k);
        if respond(above, blocked, task.frames[k], deadline).is_none() {
            return Some(k as u32);
        }
    }
    None
}

// The places are looked at from the highest on; above a place stand those before it.
pub fn first_of(o: &Ordered, shapes: [Shape; Sheet::TASK_ROOM]) -> Option<MissedFrame>
    requires { ShapesStand o.now shapes }
    ensures { result ≡ miss_in (tasks_in_order o.now) }
{
    let tallies = tallies_of(o, shapes);
    for (p, place) in o.in_use().iter().enumerate() {
        let blocked = order::blocking(o, p as u32);
        if let Some(frame) = frame_without(&tallies[..p], blocked, place.task) {
            let place = p as u32;
            return Some(MissedFrame { place, frame });
        }
    }
    None
}
