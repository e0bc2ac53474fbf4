// What is found of each task of an ordered set, place by place.
ghost use Rattle.std.specs.Prelude.{◌≡◌, ◌-◌, ◌≤◌, ◌<◌};
ghost use Rattle.theory.specs.Tasks.{frame_count, WellFormed};
ghost use Rattle.sheet.specs.Tasks.{task_in};
ghost use Rattle.order.specs.Ordered.{tasks_in_order, numbers_of};
ghost use Rattle.analysis.specs.Findings.{findings_of};
ghost use Rattle.analysis.specs.Inside.Demand.{Tallies};
ghost use Rattle.analysis.specs.Inside.Response.{frame_response};
ghost use Rattle.analysis.specs.Inside.Steps.{ShapesStand, TalliesStand, as_before, slots_to, finding_to};

use crate::Finding;
use crate::demand::Tally;
use crate::response::respond;
use admission::Shape;
use order::Ordered;
use sheet::{Sheet, Task};

// Whether frame k of a task has the time and the deadline of the frame before it.
fn as_before(task: Task, k: usize) -> bool
    requires { k < frame_count (task_in task) }
    ensures { result ≡ as_before (task_in task) k }
{
    k != 0
        && task.frames[k] == task.frames[k - 1]
        && sheet::deadline_of(task, k) == sheet::deadline_of(task, k - 1)
}

// The response of frame k; a frame with the time and the deadline of the one before it has the same.
fn response_at(
    above: &[Tally],
    blocked: u32,
    task: Task,
    k: usize,
    last: Option<u32>,
) -> Option<u32>
    requires { Tallies above.now × WellFormed (task_in task) × (k < frame_count (task_in task)) × ((tallies : Tallies above.now) → 1 ≤ k → last ≡ frame_response tallies.tasks blocked (task_in task) (k - 1)) }
    ensures { (tallies : Tallies above.now) → result ≡ frame_response tallies.tasks blocked (task_in task) k }
{
    if as_before(task, k) {
        return last;
    }
    respond(above, blocked, task.frames[k], sheet::deadline_of(task, k))
}

// The times of a task that passes: every frame has a response time within its own deadline.
fn times_of(above: &[Tally], blocked: u32, task: Task) -> Option<[u32; Sheet::FRAME_ROOM]>
    requires { Tallies above.now × WellFormed (task_in task) }
    ensures { (tallies : Tallies above.now) → result ≡ slots_to tallies.tasks blocked (task_in task) }
{
    let mut times = [0; Sheet::FRAME_ROOM];
    let mut last = None;
    for k in 0..sheet::frame_count(task) {
        last = response_at(above, blocked, task, k, last);
        times[k] = last?;
    }
    Some(times)
}

// What is found of a task.
fn finding_of(above: &[Tally], number: u32, blocked: u32, task: Task) -> Finding
    requires { Tallies above.now × WellFormed (task_in task) }
    ensures { (tallies : Tallies above.now) → result ≡ finding_to tallies.tasks number blocked (task_in task) }
{
    Finding {
        number,
        period: task.period,
        deadline: sheet::shortest_deadline(task),
        frame_count: sheet::frame_count(task) as u32,
        blocked,
        times: times_of(above, blocked, task),
    }
}

// The tally of each place of an ordered set, by the start frame of its task's shape.
pub fn tallies_of(o: &Ordered, shapes: [Shape; Sheet::TASK_ROOM]) -> [Tally; Sheet::TASK_ROOM]
    requires { ShapesStand o.now shapes }
    ensures { TalliesStand (tasks_in_order o.now) result }
{
    let mut tallies = [Tally::default(); Sheet::TASK_ROOM];
    for (p, place) in o.in_use().iter().enumerate() {
        tallies[p] = Tally::of(place.task, shapes[place.number as usize].start);
    }
    tallies
}

// What is found of all places; above a place stand those before it.
pub fn findings_of(o: &Ordered, shapes: [Shape; Sheet::TASK_ROOM]) -> [Finding; Sheet::TASK_ROOM]
    requires { ShapesStand o.now shapes }
    ensures { result ≡ findings_of (numbers_of o.now) (tasks_in_order o.now) }
{
    let tallies = tallies_of(o, shapes);
    let mut findings = [Finding::default(); Sheet::TASK_ROOM];
    for (p, place) in o.in_use().iter().enumerate() {
        let blocked = order::blocking(o, p as u32);
        findings[p] = finding_of(&tallies[..p], place.number, blocked, place.task);
    }
    findings
}
