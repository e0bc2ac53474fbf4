// The state of a play, handed on from tick to tick. Before the first miss at most one job of a task is pending, so that one slot for each task is enough.
ghost use Rattle.std.specs.Prelude.{◌≡◌, ◌≤◌, ◌<◌, length, All, IfSome};
ghost use Rattle.sheet.specs.Constants.{most_tasks, greatest_time};
ghost use Rattle.theory.specs.Runs.{stretch_now, stretch_after};
ghost use Rattle.plays.specs.ScriptRun.{stretch_by};
ghost use Rattle.player.specs.State.{due_with, soonest_due, at_rest, released, first_pending, late, first_late, picked_by, ticked, misser_in, looking_ahead, shown_byte};

use plays::Entry;
use sheet::Sheet;

// The pending job of a task: the work left (0: none is pending), the moment by which it is due, and its lock.
#[derive(Debug, Default, Clone, Copy, PartialEq, Eq)]
pub struct Job {
    pub left: u32,
    pub due: u32,
    pub lock: u32,
}

#[derive(Debug, Clone, Copy)]
pub struct Player {
    // The slot of each task by number.
    pub jobs: [Job; Sheet::TASK_ROOM],
    // No task can miss before this moment.
    pub soonest: u32,
    // The task that has the tick, or had the last one.
    pub picked: Option<u32>,
    // Of a locked stretch under way, which is that task's, the ticks still to come.
    pub to_come: u32,
}

// What the byte of a tick has more in a locked stretch.
const IN_STRETCH: u32 = 2 * Sheet::MOST_TASKS;

// Later than every moment of a play.
pub const NEVER: u32 = 0xFFFF_FFFF;

impl Job {
    // Work is left at the moment by which it is due.
    fn late(self, now: u32) -> bool
        ensures { result ≡ late self now }
    {
        0 < self.left && self.due == now
    }

    // The moment by which it is due: with no work left, never.
    fn due_with(self) -> u32
        ensures { result ≡ due_with self }
    {
        if self.left == 0 {
            return NEVER;
        }
        self.due
    }
}

// The first task of the order with work left.
fn first_pending(jobs: &[Job], order: &[u32]) -> Option<u32>
    requires { All (λ i. i < length jobs.now) order.now }
    ensures { result ≡ first_pending jobs.now order.now }
{
    order.iter().copied().find(|&i| 0 < jobs[i as usize].left)
}

// The lowest-numbered task with work left at the moment by which it is due.
fn first_late(jobs: &[Job], now: u32) -> Option<usize>
    ensures first { result ≡ first_late jobs.now now }
    ensures in_row { IfSome result (λ i. i < length jobs.now) }
{
    jobs.iter().position(|job| job.late(now))
}

// The soonest moment by which a pending job is due.
fn soonest_due(jobs: &[Job]) -> u32
    ensures { result ≡ soonest_due jobs.now }
{
    jobs.iter()
        .fold(NEVER, |soonest, job| soonest.min(job.due_with()))
}

// The length of the stretch at a tick: of one under way what is to come, or of the one that starts, where the lock is 2 or more.
fn stretch(coming: u32, lock: u32) -> u32
    ensures { result ≡ stretch_now coming (stretch_by lock) }
{
    if 0 < coming {
        return coming;
    }
    if lock < 2 {
        return 0;
    }
    lock
}

// What is to come of it after the tick: nothing more once its job has no work left.
fn stretch_after(left: u32, length: u32) -> u32
    ensures { result ≡ stretch_after left length }
{
    if left == 0 {
        return 0;
    }
    length.saturating_sub(1)
}

impl Player {
    // Nothing is pending when a run begins.
    pub fn start() -> Player
        ensures { result ≡ at_rest }
    {
        Player {
            jobs: [Job::default(); Sheet::TASK_ROOM],
            soonest: NEVER,
            picked: None,
            to_come: 0,
        }
    }

    // A job is released.
    pub fn release(mut self, entry: Entry, deadline: u32) -> Player
        requires { (entry.task < most_tasks) × (entry.tick ≤ greatest_time) × (deadline ≤ greatest_time) }
        ensures { result ≡ released self entry deadline }
    {
        let due = entry.tick + deadline;
        self.jobs[entry.task as usize] = Job {
            left: entry.work,
            due,
            lock: entry.lock,
        };
        self.soonest = self.soonest.min(due);
        self
    }

    // The task that has the tick is chosen: that of a stretch under way, else the first in the order with work left.
    pub fn pick(self, order: &[u32]) -> Player
        requires { All (λ i. i < most_tasks) order.now }
        ensures { result ≡ picked_by order.now self }
    {
        let picked = if 0 < self.to_come {
            self.picked
        } else {
            first_pending(&self.jobs, order)
        };
        // made once, here: where each of two ways makes the state, it is copied again as they meet
        Player { picked, ..self }
    }

    // The tick is given to the task picked.
    pub fn tick(self) -> Player
        ensures { result ≡ ticked self }
    {
        let mut jobs = self.jobs;
        let mut to_come = self.to_come;
        if let Some(i) = self.picked
            && i < Sheet::MOST_TASKS
        {
            let job = jobs[i as usize];
            let length = stretch(to_come, job.lock);
            let left = job.left.saturating_sub(1);
            jobs[i as usize] = Job { left, ..job };
            to_come = stretch_after(left, length);
        }
        // made once, as by `pick`
        Player {
            jobs,
            to_come,
            ..self
        }
    }

    // The lowest-numbered of the first tasks whose job has work left at the moment by which it is due, looked for from the soonest moment on.
    pub fn misser(&self, count: usize, now: u32) -> Option<u32>
        requires { count ≤ most_tasks }
        ensures { result ≡ misser_in self.now count now }
    {
        // most moments are before
        if now < self.soonest {
            return None;
        }
        let i = first_late(&self.jobs[..count], now)?;
        Some(i as u32)
    }

    // Where the soonest moment is reached, and no task misses, the next one is looked for: what was due is complete.
    pub fn look_ahead(mut self, now: u32) -> Player
        ensures { result ≡ looking_ahead self now }
    {
        if self.soonest <= now {
            self.soonest = soonest_due(&self.jobs);
        }
        self
    }

    // What the tick shows, once its task is picked: the task's number, and 32 more in a locked stretch.
    pub fn shown(&self) -> u8
        requires { IfSome self.now.picked (λ i. i < most_tasks) }
        ensures { result ≡ shown_byte self.now }
    {
        let Some(i) = self.picked else {
            return Sheet::MOST_TASKS as u8;
        };
        if stretch(self.to_come, self.jobs[i as usize].lock) == 0 {
            return i as u8;
        }
        (i + IN_STRETCH) as u8
    }
}
