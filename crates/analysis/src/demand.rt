// The demand at a time: blocking, a frame, and the work that the tasks above can have released.
ghost use Rattle.std.specs.Prelude.{◌≡◌, ◌≤◌, ◌<◌, ◌^◌};
ghost use Rattle.theory.specs.Tasks.{frame_count, work};
ghost use Rattle.theory.specs.Analysis.{Higher, releases, demand};
ghost use Rattle.sheet.specs.Tasks.{task_in};
ghost use Rattle.analysis.specs.Inside.Demand.{counted_from, TallyOf, Counted, released, Tallies};

use sheet::{Sheet, Task};

// What the datasheet's formula takes of a task: at k the sum of its first k frames from its start frame, their number, and the period.
#[derive(Clone, Copy, Default)]
pub struct Tally {
    sums: [u64; Sheet::FRAME_ROOM + 1],
    frame_count: u32,
    period: u32,
}

impl Tally {
    // The tally of a task whose work is counted from frame `start`.
    pub fn of(task: Task, start: u32) -> Tally
        requires { start < frame_count (task_in task) }
        ensures { TallyOf (counted_from task start) result }
    {
        let count = sheet::frame_count(task);
        let mut sums = [0; Sheet::FRAME_ROOM + 1];
        let mut sum: u64 = 0;
        let mut k = start as usize;
        for slot in sums[1..=count].iter_mut() {
            sum += task.frames[k] as u64;
            *slot = sum;
            k = sheet::next_frame(k, count);
        }
        Tally {
            sums,
            frame_count: count as u32,
            period: task.period,
        }
    }

    // The work of n jobs: whole rounds times the round's sum, plus the first frames that remain.
    fn work(&self, n: u32) -> u64
        requires { (h : Higher) × Counted h self.now × (work h.task h.start n < 2 ^ 64) }
        ensures { (h : Higher) → Counted h self.now → result ≡ work h.task h.start n }
    {
        let whole = n / self.frame_count;
        let remaining = n % self.frame_count;
        let round_sum = self.sums[self.frame_count as usize];
        let first_frames = self.sums[remaining as usize];
        whole as u64 * round_sum + first_frames
    }

    // The work that can be released in t ticks. Two kinds of tasks need no division by the frame count: one in its first period has
    // released one job, and one with a single frame goes round with each job.
    fn released(&self, t: u32) -> u64
        requires { (1 ≤ t) × ((h : Higher) × Counted h self.now) }
        ensures { (h : Higher) → Counted h self.now → result ≡ released h t }
    {
        if t <= self.period {
            return self.sums[1];
        }
        let n = releases(t, self.period);
        if self.frame_count == 1 {
            return n as u64 * self.sums[1];
        }
        self.work(n)
    }
}

// How many jobs a task can have released in t ticks: ⌈t/T⌉.
fn releases(t: u32, period: u32) -> u32
    requires { (1 ≤ t) × (1 ≤ period) }
    ensures { result ≡ releases t period }
{
    (t - 1) / period + 1
}

// Blocking, plus the frame, plus for each task above the work of ⌈t/T⌉ of its jobs. The lowest are added first: most of them are in
// their first period, so that the sum need not wait for divisions.
pub fn demand(above: &[Tally], blocked: u32, own: u32, t: u32) -> u64
    requires { (1 ≤ t) × Tallies above.now }
    ensures { (tallies : Tallies above.now) → result ≡ demand blocked own tallies.tasks t }
{
    let mut total = blocked as u64 + own as u64;
    for tally in above.iter().rev() {
        total += tally.released(t);
    }
    total
}
