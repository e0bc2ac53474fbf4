// The sheet: its constants, stated once, the task record, and the refusals by number.
#![tactic(auto)]

ghost use Rattle.std.specs.Prelude.{◌≡◌, ◌≤◌, ◌-◌, min, true, ◌++◌, length, replicate};
ghost use Rattle.theory.specs.Tasks.{frame_count, deadline_of, shortest_deadline};
ghost use Rattle.sheet.specs.Pairs.{the_widths, the_limits, the_policies};
ghost use Rattle.sheet.specs.Constants.{most_tasks, most_frames, fixed_room};
ghost use Rattle.sheet.specs.Fields.{header_widths, own_deadlines, fixed_widths, lock_field, frame_count_field, frame_fields, frame_widths};
ghost use Rattle.sheet.specs.Tasks.{task_in, next_round, records_of};
ghost use Rattle.sheet.specs.Admission.{known_policy, miscounted};
ghost use Rattle.sheet.specs.Reading.{version_among};
ghost use Rattle.sheet.specs.Refusals.{number_of, task_of_refusal, reason_of_refusal, surplus_refused};

use records::Surplus;

// A task as the workbench holds it: slots of `frames` and of `deadlines` past `frame_count` are not read, and are 0 when a record is filled.
#[repr(C)]
#[derive(Clone, Copy, Default)]
pub struct Task {
    pub period: u32,
    pub lock: u32,
    pub frame_count: u32,
    pub frames: [u32; Sheet::FRAME_ROOM],
    pub deadlines: [u32; Sheet::FRAME_ROOM],
}

// A set by value, what a sheet carries: the policy and, of sixteen records, the first `task_count`.
#[derive(Clone, Copy, Default)]
pub struct TaskSet {
    pub policy: u32,
    pub task_count: u32,
    pub tasks: [Task; Sheet::TASK_ROOM],
}

// The widths of the sheet's fields, in bits.
#[derive(Clone, Copy)]
pub struct Widths {
    pub version: usize,
    pub policy: usize,
    pub task_count: usize,
    pub spare: usize,
    pub time: usize,
    pub frame_count: usize,
}

// What the sheet's numbers are held to.
#[derive(Clone, Copy)]
pub struct Limits {
    pub version_1: u32,
    pub version_2: u32,
    pub tasks: u32,
    pub frames: u32,
    pub time: u32,
    pub least_size: usize,
    pub greatest_size: usize,
}

#[derive(Clone, Copy)]
pub struct Policies {
    pub listed: u32,
    pub rate_monotonic: u32,
    pub deadline_monotonic: u32,
}

// The sheet's constants.
#[derive(Clone, Copy)]
pub struct Sheet;

impl Sheet {
    pub const VERSION_WIDTH: usize = 4;

    pub const POLICY_WIDTH: usize = 2;

    pub const TASK_COUNT_WIDTH: usize = 5;

    pub const SPARE_WIDTH: usize = 5;

    pub const TIME_WIDTH: usize = 20;

    pub const FRAME_COUNT_WIDTH: usize = 4;

    // One deadline for all frames of a task, and a deadline for each frame.
    pub const VERSION_1: u32 = 1;

    pub const VERSION_2: u32 = 2;

    pub const MOST_TASKS: u32 = 16;

    pub const MOST_FRAMES: u32 = 8;

    // The same, as lengths of arrays.
    pub const TASK_ROOM: usize = Sheet::MOST_TASKS as usize;

    pub const FRAME_ROOM: usize = Sheet::MOST_FRAMES as usize;

    // How many fields the header has, and at most the fixed part of a task and all its frames.
    pub const HEADER_FIELDS: usize = 4;

    pub const FIXED_ROOM: usize = 4;

    pub const FRAME_FIELDS_ROOM: usize = 2 * Sheet::FRAME_ROOM;

    // Where each field stands in the header.
    pub const VERSION_FIELD: usize = 0;

    pub const POLICY_FIELD: usize = 1;

    pub const TASK_COUNT_FIELD: usize = 2;

    pub const SPARE_FIELD: usize = 3;

    // And in the fixed part of a task: the period in both forms, the deadline in that of version 1, which alone has one.
    pub const PERIOD_FIELD: usize = 0;

    pub const DEADLINE_FIELD: usize = 1;

    pub const GREATEST_TIME: u32 = 1_048_575;

    pub const LEAST_SIZE: usize = 15;

    pub const GREATEST_SIZE: usize = 732;

    pub const LISTED: u32 = 0;

    pub const RATE_MONOTONIC: u32 = 1;

    pub const DEADLINE_MONOTONIC: u32 = 2;

    // The constants and the numbers of the definitions are the same: neither can be changed alone. Where a field stands is held by the reader.
    pub fn widths() -> Widths
        ensures { result ≡ the_widths }
    {
        Widths {
            version: Sheet::VERSION_WIDTH,
            policy: Sheet::POLICY_WIDTH,
            task_count: Sheet::TASK_COUNT_WIDTH,
            spare: Sheet::SPARE_WIDTH,
            time: Sheet::TIME_WIDTH,
            frame_count: Sheet::FRAME_COUNT_WIDTH,
        }
    }

    pub fn limits() -> Limits
        ensures { result ≡ the_limits }
    {
        Limits {
            version_1: Sheet::VERSION_1,
            version_2: Sheet::VERSION_2,
            tasks: Sheet::MOST_TASKS,
            frames: Sheet::MOST_FRAMES,
            time: Sheet::GREATEST_TIME,
            least_size: Sheet::LEAST_SIZE,
            greatest_size: Sheet::GREATEST_SIZE,
        }
    }

    // The layout, stated once: the fields of the header, of the fixed part of a task, and of its frames, in their order.
    pub fn header_widths() -> [usize; Sheet::HEADER_FIELDS]
        ensures { result ≡ header_widths }
    {
        [
            Sheet::VERSION_WIDTH,
            Sheet::POLICY_WIDTH,
            Sheet::TASK_COUNT_WIDTH,
            Sheet::SPARE_WIDTH,
        ]
    }

    // Of a task record with a deadline of its own for each frame, or with one for all: unused room behind the widths is 0.
    pub fn fixed_widths(own: bool) -> [usize; Sheet::FIXED_ROOM]
        ensures { result ≡ fixed_widths own ++ replicate (fixed_room - length (fixed_widths own)) 0 }
    {
        let (time, count) = (Sheet::TIME_WIDTH, Sheet::FRAME_COUNT_WIDTH);
        if own {
            [time, time, count, 0]
        } else {
            [time, time, time, count]
        }
    }

    // How many fields that part has.
    pub fn fixed_fields(own: bool) -> usize
        ensures { result ≡ length (fixed_widths own) }
    {
        if own { 3 } else { 4 }
    }

    // Where the lock stands in it, and the frame count.
    pub fn lock_field(own: bool) -> usize
        ensures { result ≡ lock_field own }
    {
        if own { 1 } else { 2 }
    }

    pub fn frame_count_field(own: bool) -> usize
        ensures { result ≡ frame_count_field own }
    {
        if own { 2 } else { 3 }
    }

    // How many fields each frame has.
    pub fn frame_fields(own: bool) -> usize
        ensures { result ≡ frame_fields own }
    {
        if own { 2 } else { 1 }
    }

    // The fields of as many frames as a record has slots for.
    pub fn frame_widths() -> [usize; Sheet::FRAME_FIELDS_ROOM]
        ensures { result ≡ frame_widths true most_frames }
    {
        [Sheet::TIME_WIDTH; Sheet::FRAME_FIELDS_ROOM]
    }

    // Whether a version gives each frame a deadline of its own.
    pub fn own_deadlines(version: u32) -> bool
        ensures { result ≡ own_deadlines version }
    {
        version == Sheet::VERSION_2
    }

    pub fn policies() -> Policies
        ensures { result ≡ the_policies }
    {
        Policies {
            listed: Sheet::LISTED,
            rate_monotonic: Sheet::RATE_MONOTONIC,
            deadline_monotonic: Sheet::DEADLINE_MONOTONIC,
        }
    }
}

impl Task {
    // The times of its frames.
    pub fn frames_in_use(&self) -> &[u32]
        ensures are { result.now ≡ (task_in self.now).frames }
        ensures few { length result.now ≤ most_frames }
    {
        &self.frames[..in_use(self.frame_count as usize, Sheet::FRAME_ROOM)]
    }

    // The deadlines of its frames.
    pub fn deadlines_in_use(&self) -> &[u32]
        ensures are { result.now ≡ (task_in self.now).deadlines }
        ensures few { length result.now ≤ most_frames }
    {
        &self.deadlines[..in_use(self.frame_count as usize, Sheet::FRAME_ROOM)]
    }
}

impl TaskSet {
    // The records of its tasks.
    pub fn tasks_in_use(&self) -> &[Task]
        ensures are { result.now ≡ records_of self.now }
        ensures few { length result.now ≤ most_tasks }
    {
        &self.tasks[..in_use(self.task_count as usize, Sheet::TASK_ROOM)]
    }
}

// How many of `most` slots are in use.
pub fn in_use(count: usize, most: usize) -> usize
    ensures { result ≡ min count most }
{
    count.min(most)
}

// Whether a policy is one of the known.
pub fn known_policy(policy: u32) -> bool
    ensures { result ≡ known_policy policy }
{
    policy <= Sheet::DEADLINE_MONOTONIC
}

// Whether a version is one of those from `least` to `most`.
pub fn version_among(least: u32, most: u32, version: u32) -> bool
    ensures { result ≡ version_among least most version }
{
    (least..=most).contains(&version)
}

// Whether a count is 0 or over its limit.
pub fn miscounted(n: u32, most: u32) -> bool
    ensures { result ≡ miscounted n most }
{
    !(1..=most).contains(&n)
}

// The frame that follows frame k of `count`, going round.
pub fn next_frame(k: usize, count: usize) -> usize
    ensures { result ≡ next_round k count }
{
    // behind the last number comes 0, which is the answer there too
    let next = k.wrapping_add(1);
    if next < count { next } else { 0 }
}

// How many frames a task has.
pub fn frame_count(task: Task) -> usize
    ensures { result ≡ frame_count (task_in task) }
{
    in_use(task.frame_count as usize, Sheet::FRAME_ROOM)
}

// The frame of a task that follows frame k, going round.
pub fn frame_after(task: Task, k: u32) -> u32
    ensures { result ≡ next_round k (frame_count (task_in task)) }
{
    next_frame(k as usize, frame_count(task)) as u32
}

// The deadline of frame k, going round.
pub fn deadline_of(task: Task, k: usize) -> u32
    ensures { result ≡ deadline_of (task_in task) k }
{
    let deadlines = task.deadlines_in_use();
    if deadlines.is_empty() {
        return 0;
    }
    deadlines[k % deadlines.len()]
}

// The shortest deadline of a task's frames; 0 where it has none.
pub fn shortest_deadline(task: Task) -> u32
    ensures { result ≡ shortest_deadline (task_in task) }
{
    task.deadlines_in_use().iter().copied().min().unwrap_or(0)
}

// Why no frame of a task qualifies as start: the lowest-numbered largest frame, the shortest length at which another frame's sum is greater, and
// the lowest-numbered such frame.
#[derive(Clone, Copy, Debug, PartialEq, Eq, Default)]
pub struct Reason {
    pub frame: u32,
    pub length: u32,
    pub other: u32,
}

// What is turned away, in the order of the numbers 1 to 12, and 17; a task number where the number belongs to a task, and of 11 the reason.
#[derive(Clone, Copy, Debug, PartialEq, Eq)]
pub enum Refusal {
    Length,
    CheckWord,
    Version,
    Policy,
    BitSet,
    TaskCount,
    FrameCount(u32),
    Records,
    IllFormed(u32),
    Lock(u32),
    NotMonotonic(u32, Reason),
    Room,
    Deadlines,
}

impl Refusal {
    pub fn number(self) -> u32
        ensures { result ≡ number_of self }
    {
        match self {
            Refusal::Length => 1,
            Refusal::CheckWord => 2,
            Refusal::Version => 3,
            Refusal::Policy => 4,
            Refusal::BitSet => 5,
            Refusal::TaskCount => 6,
            Refusal::FrameCount(_) => 7,
            Refusal::Records => 8,
            Refusal::IllFormed(_) => 9,
            Refusal::Lock(_) => 10,
            Refusal::NotMonotonic(_, _) => 11,
            Refusal::Room => 12,
            Refusal::Deadlines => 17,
        }
    }

    pub fn task(self) -> u32
        ensures { result ≡ task_of_refusal self }
    {
        match self {
            Refusal::FrameCount(i)
            | Refusal::IllFormed(i)
            | Refusal::Lock(i)
            | Refusal::NotMonotonic(i, _) => i,
            _ => 0,
        }
    }

    pub fn reason(self) -> Reason
        ensures { result ≡ reason_of_refusal self }
    {
        match self {
            Refusal::NotMonotonic(_, why) => why,
            _ => Reason::default(),
        }
    }
}

// Bits behind the last record of a sheet: 8 for a byte or more, 5 for a fill bit.
impl From<Surplus> for Refusal {
    ghost from_gives = { λ left why. why ≡ surplus_refused left };

    fn from(left: Surplus) -> Refusal {
        match left {
            Surplus::ByteLeft => Refusal::Records,
            Surplus::BitSet => Refusal::BitSet,
        }
    }
}

// What the reader gives of a sheet that it admits.
#[derive(Clone, Copy)]
pub struct Reading {
    pub version: u32,
    pub set: TaskSet,
}
