// The reader: sheet bytes to a set, or the one refusal.
#![tactic(auto)]

ghost use Rattle.std.specs.Prelude.{◌≡◌, true, ◌*◌, ◌≤◌, ◌<◌, length, get_or, take, drop};
ghost use Rattle.bits.specs.Packed.{bits_of};
ghost use Rattle.records.specs.Rows.{total};
ghost use Rattle.sheet.specs.Constants.{fixed_room, most_tasks, most_frames, greatest_size};
ghost use Rattle.sheet.specs.Fields.{header_widths, fixed_widths, frame_fields, frame_widths};
ghost use Rattle.sheet.specs.Tasks.{record_of};
ghost use Rattle.sheet.specs.Layout.{task_from};
ghost use Rattle.sheet.specs.Reading.{reading_among, reading};
ghost use Rattle.reader.specs.Sheets.{sheet_judged};
ghost use Rattle.reader.specs.Inside.Parts.{row_at, frame_slots, deadline_in, found_at, records_reading, body_reading, bytes_reading};

use admission::Judged;
use sheet::{Reading, Refusal, Sheet, Task, TaskSet};

// The numbers of a row of fields, 0 in the slots past them, and where the row ends.
#[derive(Clone, Copy)]
struct Row<const N: usize> {
    numbers: [u32; N],
    end: usize,
}

// The row of fields of these widths from `at` on; 8 where they are not all there.
fn row_at<const N: usize>(body: &[u8], at: usize, widths: &[usize]) -> Result<Row<N>, Refusal>
    ensures { result ≡ row_at N body.now at widths.now }
{
    let mut numbers = [0u32; N];
    let end = records::take_row(body, at, widths, &mut numbers).ok_or(Refusal::Records)?;
    Ok(Row { numbers, end })
}

// The header.
fn header_row(body: &[u8]) -> Result<Row<{ Sheet::HEADER_FIELDS }>, Refusal>
    ensures { result ≡ row_at fixed_room body.now 0 header_widths }
{
    row_at(body, 0, &Sheet::header_widths())
}

// The fixed part of a record that stands from `at` on.
fn fixed_row(body: &[u8], at: usize, own: bool) -> Result<Row<{ Sheet::FIXED_ROOM }>, Refusal>
    ensures { result ≡ row_at fixed_room body.now at (fixed_widths own) }
{
    let widths = Sheet::fixed_widths(own);
    row_at(body, at, &widths[..Sheet::fixed_fields(own)])
}

// The frames that stand one after another from `at` on.
fn frame_row(
    body: &[u8],
    at: usize,
    own: bool,
    count: u32,
) -> Result<Row<{ Sheet::FRAME_FIELDS_ROOM }>, Refusal>
    requires { count ≤ most_frames }
    ensures { result ≡ row_at frame_slots body.now at (frame_widths own count) }
{
    let widths = Sheet::frame_widths();
    row_at(
        body,
        at,
        &widths[..Sheet::frame_fields(own) * count as usize],
    )
}

// The numbers of a task record: those of its fixed part, and of its frames; and whether each frame has a deadline of its own.
#[derive(Clone, Copy)]
struct Numbers {
    own: bool,
    fixed: [u32; Sheet::FIXED_ROOM],
    frames: [u32; Sheet::FRAME_FIELDS_ROOM],
}

impl Numbers {
    // The time of frame k.
    fn time(&self, k: usize) -> u32
        requires { k < most_frames }
        ensures { result ≡ get_or self.now.frames (frame_fields self.now.own * k) 0 }
    {
        self.frames[Sheet::frame_fields(self.own) * k]
    }

    // Its deadline: behind its time, or the one of the fixed part.
    fn deadline(&self, k: usize) -> u32
        requires { k < most_frames }
        ensures { result ≡ deadline_in self.now.own self.now.fixed self.now.frames k }
    {
        if self.own {
            self.frames[2 * k + 1]
        } else {
            self.fixed[Sheet::DEADLINE_FIELD]
        }
    }

    // The task of `count` frames.
    fn task(&self, count: u32) -> Task
        requires { count ≤ most_frames }
        ensures { result ≡ record_of (task_from self.now.own self.now.fixed (take (frame_fields self.now.own * count) self.now.frames)) }
    {
        let mut frames = [0u32; Sheet::FRAME_ROOM];
        let mut deadlines = [0u32; Sheet::FRAME_ROOM];
        for k in 0..count as usize {
            frames[k] = self.time(k);
            deadlines[k] = self.deadline(k);
        }
        Task {
            period: self.fixed[Sheet::PERIOD_FIELD],
            lock: self.fixed[Sheet::lock_field(self.own)],
            frame_count: count,
            frames,
            deadlines,
        }
    }
}

// A task record, and where the next one starts.
#[derive(Clone, Copy)]
struct Found {
    task: Task,
    next: usize,
}

// The record of task i at `at`: 8 if the fixed bits are not all there, 7, 8 if its frames are not.
fn read_record(body: &[u8], at: usize, own: bool, i: u32) -> Result<Found, Refusal>
    requires { length body.now ≤ greatest_size }
    ensures { result ≡ found_at own i at (drop at (bits_of body.now)) }
{
    let Row {
        numbers: fixed,
        end,
    } = fixed_row(body, at, own)?;
    let count = fixed[Sheet::frame_count_field(own)];
    if sheet::miscounted(count, Sheet::MOST_FRAMES) {
        return Err(Refusal::FrameCount(i));
    }
    let Row {
        numbers: frames,
        end: next,
    } = frame_row(body, end, own, count)?;
    let numbers = Numbers { own, fixed, frames };
    let task = numbers.task(count);
    Ok(Found { task, next })
}

// The records from `start` on, task by task, and the fill behind them: 8 for bits left, 5 for fill bits.
fn read_records(
    body: &[u8],
    start: usize,
    version: u32,
    policy: u32,
    count: u32,
) -> Result<Reading, Refusal>
    requires { (count ≤ most_tasks) × (length body.now ≤ greatest_size) }
    ensures { result ≡ records_reading version policy count (drop start (bits_of body.now)) }
{
    let own = Sheet::own_deadlines(version);
    let mut tasks = [Task::default(); Sheet::TASK_ROOM];
    let mut at = start;
    for (i, task) in tasks[..count as usize].iter_mut().enumerate() {
        let found = read_record(body, at, own, i as u32)?;
        *task = found.task;
        at = found.next;
    }
    records::left_behind(body, at)?;
    let set = TaskSet {
        policy,
        task_count: count,
        tasks,
    };
    Ok(Reading { version, set })
}

// The bytes before the check word, up to and without the rules of the tasks themselves. A sheet of the least size has its header.
fn read_body(body: &[u8], least: u32, most: u32) -> Result<Reading, Refusal>
    requires { (total header_widths ≤ 8 * length body.now) × (length body.now ≤ greatest_size) }
    ensures { result ≡ body_reading least most (bits_of body.now) }
{
    let header = header_row(body)?;
    let version = header.numbers[Sheet::VERSION_FIELD];
    if !sheet::version_among(least, most, version) {
        return Err(Refusal::Version);
    }
    let policy = header.numbers[Sheet::POLICY_FIELD];
    if !sheet::known_policy(policy) {
        return Err(Refusal::Policy);
    }
    if header.numbers[Sheet::SPARE_FIELD] != 0 {
        return Err(Refusal::BitSet);
    }
    let count = header.numbers[Sheet::TASK_COUNT_FIELD];
    if sheet::miscounted(count, Sheet::MOST_TASKS) {
        return Err(Refusal::TaskCount);
    }
    read_records(body, header.end, version, policy, count)
}

// A byte string up to and without the rules of the tasks themselves, for a reader of the versions `least` to `most`.
fn read_bytes(bytes: &[u8], least: u32, most: u32) -> Result<Reading, Refusal>
    ensures { result ≡ bytes_reading least most bytes.now }
{
    let n = bytes.len();
    if !(Sheet::LEAST_SIZE..=Sheet::GREATEST_SIZE).contains(&n) {
        return Err(Refusal::Length);
    }
    if !check_word::sealed(bytes) {
        return Err(Refusal::CheckWord);
    }
    read_body(&bytes[..n - check_word::SIZE], least, most)
}

// What a byte string of either version carries, judged: the set with the shapes of its tasks, or the one refusal.
pub fn admit_sheet(bytes: &[u8]) -> Result<Judged, Refusal>
    ensures { result ≡ sheet_judged bytes.now }
{
    let found = read_bytes(bytes, Sheet::VERSION_1, Sheet::VERSION_2)?;
    admission::judge_tasks(found.set)
}

// What a byte string of a version from `least` to `most` carries, or the one refusal.
pub fn read_among(bytes: &[u8], least: u32, most: u32) -> Result<Reading, Refusal>
    ensures { result ≡ reading_among least most bytes.now }
{
    let found = read_bytes(bytes, least, most)?;
    admission::judge_tasks(found.set)?;
    Ok(found)
}

// What a byte string of either version carries, or the one refusal.
pub fn read_sheet(bytes: &[u8]) -> Result<Reading, Refusal>
    ensures { result ≡ reading bytes.now }
{
    read_among(bytes, Sheet::VERSION_1, Sheet::VERSION_2)
}
