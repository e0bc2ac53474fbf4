// The course of a play, moment by moment: misses, a look ahead, releases, pick, tick.
ghost use Rattle.std.specs.Prelude.{◌≡◌, length};
ghost use Rattle.lent.specs.Lent.{laid};
ghost use Rattle.player.specs.Inside.Course.{upcoming, Stage, Going, Gone, Calmly, with_player, done_with, the_end, Traceable, shown_on};

use crate::Played;
use crate::state::{NEVER, Player};
use plays::Entry;
use sheet::{Sheet, Task};

// Who plays: how many tasks and entries there are, the task numbers in priority order, and the record of each task.
#[derive(Clone, Copy)]
pub struct Cast {
    pub count: u32,
    pub entries: u32,
    pub order: [u32; Sheet::TASK_ROOM],
    pub tasks: [Task; Sheet::TASK_ROOM],
}

// How far a play has come: the state, the frame of each task's next job, how many entries were released, and the next one.
#[derive(Clone, Copy)]
struct Progress {
    player: Player,
    frames: [u32; Sheet::TASK_ROOM],
    released: u32,
    next: Entry,
}

// The last moment at which a play can end: a job is released by the greatest time, and misses that much later.
const LAST_MOMENT: u32 = 2 * Sheet::GREATEST_TIME;

impl Cast {
    // Entry j, or one that is never released where there is none.
    fn upcoming(&self, script: &[u8], j: u32) -> Entry
        ensures { result ≡ upcoming script.now self.now j }
    {
        if j < self.entries {
            return scripts::entry_at(script, self.count, j);
        }
        Entry {
            task: 0,
            tick: NEVER,
            work: 0,
            lock: 0,
        }
    }
}

impl Progress {
    // Before the first tick.
    fn start(script: &[u8], cast: &Cast) -> Progress
        requires { Stage script.now cast.now }
        ensures { (stage : Stage script.now cast.now) → Going stage 0 result }
    {
        let frames = scripts::first_frames(script, cast.count);
        Progress {
            player: Player::start(),
            frames,
            released: 0,
            next: cast.upcoming(script, 0),
        }
    }

    // The releases of a tick: a job has the deadline of its frame, and its task's next job the frame that follows.
    fn releases(&mut self, script: &[u8], cast: &Cast, moment: u32)
        requires { Calmly script.now cast.now moment self.old }
        ensures { (on : Calmly script.now cast.now moment self.old) → Gone on.stage moment self.new }
    {
        while self.next.tick == moment {
            let i = self.next.task as usize;
            let task = cast.tasks[i];
            let k = self.frames[i];
            let deadline = sheet::deadline_of(task, k as usize);
            self.player = self.player.release(self.next, deadline);
            self.frames[i] = sheet::frame_after(task, k);
            self.released += 1;
            self.next = cast.upcoming(script, self.released);
        }
    }

    // All jobs are done: every entry is released, and the player, which has picked and is not put back yet, has no task.
    fn all_done(&self, player: &Player, entries: u32) -> bool
        ensures { result ≡ done_with entries (with_player self.now player.now) }
    {
        entries <= self.released && player.picked.is_none()
    }
}

// The play, tick by tick, up to the first miss or until all jobs are done.
pub fn play_on(script: &[u8], cast: &Cast) -> Played
    requires { Stage script.now cast.now }
    ensures { (stage : Stage script.now cast.now) → result ≡ the_end stage }
{
    let order = &cast.order[..cast.count as usize];
    let mut at = Progress::start(script, cast);
    for moment in 0..LAST_MOMENT + 1 {
        if let Some(task) = at.player.misser(order.len(), moment) {
            return Played::Missed(moment, task);
        }
        // most moments are before the soonest
        if at.player.soonest <= moment {
            at.player = at.player.look_ahead(moment);
        }
        // and at most of them nothing is released
        if at.next.tick == moment {
            at.releases(script, cast, moment);
        }
        let player = at.player.pick(order);
        if at.all_done(&player, cast.entries) {
            return Played::Done(moment);
        }
        at.player = player.tick();
    }
    // every play has ended by the last moment
    unreachable!()
}

// What each tick of the play shows, a byte each.
pub fn trace_on(script: &[u8], cast: &Cast, end: u32, ticks: &mut [u8])
    requires { Traceable script.now cast.now end (length ticks.old) }
    ensures { (stage : Stage script.now cast.now) → ticks.new ≡ laid (shown_on stage end) ticks.old }
{
    let order = &cast.order[..cast.count as usize];
    let mut at = Progress::start(script, cast);
    for moment in 0..end {
        // at most ticks nothing is released
        if at.next.tick == moment {
            at.releases(script, cast, moment);
        }
        let player = at.player.pick(order);
        ticks[moment as usize] = player.shown();
        at.player = player.tick();
    }
}
