// Admission of a task list by value: the start frame of a task, 9, 10 and 11 task by task, and the whole order for a list.
#![tactic(auto)]

ghost use Rattle.std.specs.Prelude.{◌&&◌, map, ◌≡◌, ◌≤◌, ◌<◌, length, IfSome};
ghost use Rattle.std.specs.List.{position_from};
ghost use Rattle.theory.specs.First.{first};
ghost use Rattle.theory.specs.Tasks.{frame_count, work, largest, largest_frame, qualifies};
ghost use Rattle.theory.specs.Reason.{exceeding};
ghost use Rattle.sheet.specs.Constants.{most_frames};
ghost use Rattle.sheet.specs.Tasks.{task_in, records_of};
ghost use Rattle.sheet.specs.Admission.{decided, miscounted, is_time, in_range, well_formed, reason_of, task_checks, frame_count_checks, admission};
ghost use Rattle.admission.specs.Start.{start_of};
ghost use Rattle.admission.specs.Judged.{judged};
ghost use Rattle.admission.specs.Inside.Frames.{of_frames, from_at_least, all_between};
ghost use Rattle.admission.specs.Inside.Steps.{task_answer};

use sheet::{Reason, Refusal, Sheet, Task, TaskSet};

// What admission finds of a task's frames and hands on: the start frame.
#[derive(Clone, Copy, Default)]
pub struct Shape {
    pub start: u32,
}

// A set that was admitted, with the shape of each task.
#[derive(Clone, Copy)]
pub struct Judged {
    pub set: TaskSet,
    pub shapes: [Shape; Sheet::TASK_ROOM],
}

// Whether the sum from frame s is at least that from frame k, going round, for each length up to the number of frames. Sums of times are held in 64 bits.
fn at_least(frames: &[u32], s: usize, k: usize) -> bool
    requires { (length frames.now ≤ most_frames) × (s < length frames.now) × (k < length frames.now) }
    ensures { result ≡ from_at_least (of_frames frames.now) s k }
{
    let mut sum_s: u64 = 0;
    let mut sum_k: u64 = 0;
    let mut i = s;
    let mut j = k;
    for _ in 0..frames.len() {
        sum_s += frames[i] as u64;
        sum_k += frames[j] as u64;
        if sum_s < sum_k {
            return false;
        }
        i = sheet::next_frame(i, frames.len());
        j = sheet::next_frame(j, frames.len());
    }
    true
}

// Whether frame s qualifies as a start frame.
fn qualifies(frames: &[u32], s: usize) -> bool
    requires { (length frames.now ≤ most_frames) × (s < length frames.now) }
    ensures { result ≡ qualifies (of_frames frames.now) s }
{
    (0..frames.len()).all(|k| at_least(frames, s, k))
}

// The largest frame time; 0 where there is no frame.
fn largest(frames: &[u32]) -> u32
    ensures { result ≡ largest frames.now }
{
    frames.iter().copied().max().unwrap_or(0)
}

// The lowest-numbered largest frame; 0 where there is no frame.
fn first_largest(frames: &[u32]) -> usize
    ensures { result ≡ largest_frame (of_frames frames.now) }
{
    let most = largest(frames);
    frames.iter().position(|&c| c == most).unwrap_or(0)
}

// The sum of n frames from frame s, going round.
fn sum_from(frames: &[u32], s: usize, n: usize) -> u64
    requires { (length frames.now ≤ most_frames) × (s < length frames.now) × (n ≤ most_frames) }
    ensures { result ≡ work (of_frames frames.now) s n }
{
    let mut sum: u64 = 0;
    let mut i = s;
    for _ in 0..n {
        sum += frames[i] as u64;
        i = sheet::next_frame(i, frames.len());
    }
    sum
}

// The lowest-numbered frame with a greater sum of n frames than frame s.
fn exceeding(frames: &[u32], s: usize, n: usize) -> Option<usize>
    requires { (length frames.now ≤ most_frames) × (s < length frames.now) × (n ≤ most_frames) }
    ensures { result ≡ exceeding (of_frames frames.now) s n }
{
    let sum = sum_from(frames, s, n);
    (0..frames.len()).find(|&other| sum < sum_from(frames, other, n))
}

// Why no frame qualifies: who exceeds the largest frame, and at what length; 0 and 0 where nobody does.
fn reason(frames: &[u32]) -> Reason
    requires { length frames.now ≤ most_frames }
    ensures { result ≡ reason_of (of_frames frames.now) }
{
    let largest = first_largest(frames);
    let frame = largest as u32;
    for n in 1..=frames.len() {
        if let Some(other) = exceeding(frames, largest, n) {
            return Reason {
                frame,
                length: n as u32,
                other: other as u32,
            };
        }
    }
    Reason {
        frame,
        length: 0,
        other: 0,
    }
}

// The lowest-numbered frame that qualifies.
fn first_qualifying(frames: &[u32]) -> Option<usize>
    requires { length frames.now ≤ most_frames }
    ensures { result ≡ first 0 (frame_count (of_frames frames.now)) (qualifies (of_frames frames.now)) }
{
    (0..frames.len()).find(|&s| qualifies(frames, s))
}

// The lowest-numbered frame of a task that qualifies, or why none does.
pub fn start_frame(task: Task) -> Result<u32, Reason>
    ensures { result ≡ start_of (task_in task) }
{
    let frames = task.frames_in_use();
    match first_qualifying(frames) {
        Some(s) => Ok(s as u32),
        None => Err(reason(frames)),
    }
}

// Whether every frame takes a tick or more and at most its deadline, and no deadline exceeds the period.
fn frames_between(frames: &[u32], deadlines: &[u32], period: u32) -> bool
    ensures { result ≡ all_between period frames.now deadlines.now }
{
    frames
        .iter()
        .zip(deadlines)
        .all(|(&c, &d)| 1 <= c && c <= d && d <= period)
}

// Whether a time is from 1 to the greatest.
fn is_time(n: u32) -> bool
    ensures { result ≡ is_time n }
{
    (1..=Sheet::GREATEST_TIME).contains(&n)
}

// Whether a task is in range and well formed. Frame times and deadlines need no limit of their own above: they are at most the period, which has one.
fn well_formed(task: Task) -> bool
    ensures { result ≡ (in_range (task_in task) && well_formed (task_in task)) }
{
    is_time(task.period)
        && task.lock <= Sheet::GREATEST_TIME
        && frames_between(task.frames_in_use(), task.deadlines_in_use(), task.period)
}

// The lowest-numbered largest frame of a task; 0 where it has none.
pub fn largest_frame(task: Task) -> u32
    ensures { result ≡ largest_frame (task_in task) }
{
    first_largest(task.frames_in_use()) as u32
}

// 9, 10, 11 of one task.
fn task_answer(task: Task, number: u32) -> Result<Shape, Refusal>
    ensures { result ≡ task_answer number (task_in task) }
{
    if !well_formed(task) {
        return Err(Refusal::IllFormed(number));
    }
    if largest(task.frames_in_use()) < task.lock {
        return Err(Refusal::Lock(number));
    }
    match start_frame(task) {
        Ok(start) => Ok(Shape { start }),
        Err(why) => Err(Refusal::NotMonotonic(number, why)),
    }
}

// 9, 10, 11 task by task.
pub fn judge_tasks(set: TaskSet) -> Result<Judged, Refusal>
    ensures { result ≡ judged (decided (task_checks 0 (map task_in (records_of set)))) set }
{
    let mut shapes = [Shape::default(); Sheet::TASK_ROOM];
    for (i, &task) in set.tasks_in_use().iter().enumerate() {
        shapes[i] = task_answer(task, i as u32)?;
    }
    Ok(Judged { set, shapes })
}

// The first task whose frames are none or too many.
fn first_miscounted(tasks: &[Task]) -> Option<usize>
    ensures found { result ≡ position_from (λ r. miscounted r.frame_count most_frames) 0 tasks.now }
    ensures within { IfSome result (λ i. i < length tasks.now) }
{
    tasks.iter().position(|task| sheet::miscounted(task.frame_count, Sheet::MOST_FRAMES))
}

// 7 task by task.
fn frame_counts(set: TaskSet) -> Result<(), Refusal>
    ensures { result ≡ decided (frame_count_checks 0 (records_of set)) }
{
    match first_miscounted(set.tasks_in_use()) {
        Some(i) => Err(Refusal::FrameCount(i as u32)),
        None => Ok(()),
    }
}

// The order for a list: 4, 6, 7 task by task, then task by task 9, 10, 11.
pub fn admit(set: TaskSet) -> Result<Judged, Refusal>
    ensures { result ≡ judged (admission set) set }
{
    if !sheet::known_policy(set.policy) {
        return Err(Refusal::Policy);
    }
    if sheet::miscounted(set.task_count, Sheet::MOST_TASKS) {
        return Err(Refusal::TaskCount);
    }
    frame_counts(set)?;
    judge_tasks(set)
}
