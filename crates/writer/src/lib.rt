// The writer: a set by value becomes a sheet of either version in the lent bytes, field after field, most significant bit first.
#![tactic(auto)]

ghost use Rattle.std.specs.Prelude.{◌≡◌, Ok, true, ◌||◌, map, ◌++◌, ◌+◌, ◌-◌, ◌*◌, ◌≤◌, ◌<◌, length, get_or, take, replicate};
ghost use Rattle.records.specs.Faces.{end_of};
ghost use Rattle.records.specs.Inside.Steps.{Placed};
ghost use Rattle.sheet.specs.Tasks.{task_in, records_of};
ghost use Rattle.sheet.specs.Constants.{version_1, version_2, fixed_room, most_tasks, most_frames, deadline_monotonic};
ghost use Rattle.sheet.specs.Fields.{own_deadlines, fixed_widths, frame_fields};
ghost use Rattle.sheet.specs.Admission.{in_range, admission};
ghost use Rattle.sheet.specs.Reading.{version_among};
ghost use Rattle.sheet.specs.Writing.{header_bits, fixed_numbers, frame_numbers, task_bits, tasks_bits, sheet_bytes, one_deadline, one_deadline_each, written, left};

use sheet::{Refusal, Sheet, Task, TaskSet};

// Version, policy, task count, spare.
fn put_header(bytes: &mut [u8], version: u32, policy: u32, count: u32) -> usize
    requires { (version ≤ version_2) × (policy ≤ deadline_monotonic) × (count ≤ most_tasks) × (length (header_bits version policy count) ≤ end_of (length bytes.old)) }
    ensures { Placed bytes.old 0 (header_bits version policy count) bytes.new result }
{
    let widths = Sheet::header_widths();
    records::append_row(bytes, 0, &widths, &[version, policy, count, 0])
}

// The numbers of a record's fixed part: the first deadline stands for all, or none stands there.
fn fixed_numbers(own: bool, task: Task) -> [u32; Sheet::FIXED_ROOM]
    requires { task.frame_count ≤ most_frames }
    ensures { result ≡ fixed_numbers own (task_in task) ++ replicate (fixed_room - length (fixed_widths own)) 0 }
{
    if own {
        return [task.period, task.lock, task.frame_count, 0];
    }
    let deadline = sheet::deadline_of(task, 0);
    [task.period, deadline, task.lock, task.frame_count]
}

// Number j of a record's frames: times alone, or times and deadlines by turns.
fn frame_number(own: bool, task: Task, j: usize) -> u32
    requires { (task.frame_count ≤ most_frames) × (j < frame_fields own * task.frame_count) }
    ensures { result ≡ get_or (frame_numbers own (task_in task)) j 0 }
{
    if !own {
        task.frames[j]
    } else if j % 2 == 0 {
        task.frames[j / 2]
    } else {
        task.deadlines[j / 2]
    }
}

// All of them, in room for eight frames.
fn frame_numbers(own: bool, task: Task) -> [u32; Sheet::FRAME_FIELDS_ROOM]
    requires { task.frame_count ≤ most_frames }
    ensures { take (frame_fields own * task.frame_count) result ≡ frame_numbers own (task_in task) }
{
    let fields = Sheet::frame_fields(own) * task.frame_count as usize;
    let mut numbers = [0u32; Sheet::FRAME_FIELDS_ROOM];
    for (j, number) in numbers[..fields].iter_mut().enumerate() {
        *number = frame_number(own, task, j);
    }
    numbers
}

// The fixed part, then the frames.
fn put_task(bytes: &mut [u8], at: usize, own: bool, task: Task) -> usize
    requires { (1 ≤ task.frame_count) × (task.frame_count ≤ most_frames) × (in_range (task_in task) ≡ true) × (at + length (task_bits own (task_in task)) ≤ end_of (length bytes.old)) }
    ensures { Placed bytes.old at (task_bits own (task_in task)) bytes.new result }
{
    let widths = Sheet::fixed_widths(own);
    let fields = Sheet::fixed_fields(own);
    let fixed = fixed_numbers(own, task);
    let next = records::append_row(bytes, at, &widths[..fields], &fixed[..fields]);
    let frame_widths = Sheet::frame_widths();
    let frame_fields = Sheet::frame_fields(own) * task.frame_count as usize;
    let numbers = frame_numbers(own, task);
    records::append_row(
        bytes,
        next,
        &frame_widths[..frame_fields],
        &numbers[..frame_fields],
    )
}

// The task records one after another.
fn put_tasks(bytes: &mut [u8], at: usize, own: bool, set: TaskSet) -> usize
    requires { (admission set ≡ Ok tt) × (at + length (tasks_bits own (map task_in (records_of set))) ≤ end_of (length bytes.old)) }
    ensures { Placed bytes.old at (tasks_bits own (map task_in (records_of set))) bytes.new result }
{
    let mut next = at;
    for &task in set.tasks_in_use() {
        next = put_task(bytes, next, own, task);
    }
    next
}

// How many bits a record takes.
fn task_width(own: bool, task: Task) -> usize
    requires { task.frame_count ≤ most_frames }
    ensures { result ≡ length (task_bits own (task_in task)) }
{
    let widths = Sheet::fixed_widths(own);
    let fixed = records::width_of(&widths[..Sheet::fixed_fields(own)]);
    let frame_widths = Sheet::frame_widths();
    let frame_fields = Sheet::frame_fields(own) * task.frame_count as usize;
    fixed + records::width_of(&frame_widths[..frame_fields])
}

// How many bytes the sheet of a set takes.
fn sheet_size(version: u32, set: TaskSet) -> usize
    requires { admission set ≡ Ok tt }
    ensures { result ≡ length (sheet_bytes version set) }
{
    let own = Sheet::own_deadlines(version);
    let mut bits = records::width_of(&Sheet::header_widths());
    for &task in set.tasks_in_use() {
        bits += task_width(own, task);
    }
    records::sealed_size(bits)
}

// The whole sheet into as many bytes as it has: header, task records, fill and check word.
fn put_sheet(bytes: &mut [u8], version: u32, set: TaskSet)
    requires { (version ≤ version_2) × (admission set ≡ Ok tt) × (length bytes.old ≡ length (sheet_bytes version set)) }
    ensures { bytes.new ≡ sheet_bytes version set }
{
    let at = put_header(bytes, version, set.policy, set.task_count);
    let end = put_tasks(bytes, at, Sheet::own_deadlines(version), set);
    records::close(bytes, end);
}

// Whether all frames of a task have the same deadline.
fn one_deadline(task: Task) -> bool
    ensures { result ≡ one_deadline (task_in task) }
{
    let first = sheet::deadline_of(task, 0);
    task.deadlines_in_use().iter().all(|&d| d == first)
}

// Whether each task of a set has but one deadline.
fn one_deadline_each(set: TaskSet) -> bool
    ensures { result ≡ one_deadline_each (map task_in (records_of set)) }
{
    set.tasks_in_use().iter().all(|&task| one_deadline(task))
}

// Whether a version can hold a set.
fn held(version: u32, set: TaskSet) -> bool
    ensures { result ≡ (own_deadlines version || one_deadline_each (map task_in (records_of set))) }
{
    Sheet::own_deadlines(version) || one_deadline_each(set)
}

// The sheet of an admitted set, in a known version that can hold it.
fn write_admitted(version: u32, set: TaskSet, bytes: &mut [u8]) -> Result<usize, Refusal>
    requires { (version_among version_1 version_2 version ≡ true) × (admission set ≡ Ok tt) × ((own_deadlines version || one_deadline_each (map task_in (records_of set))) ≡ true) }
    ensures { (result ≡ written version set bytes.old) × (bytes.new ≡ left version set bytes.old) }
{
    let size = sheet_size(version, set);
    if bytes.len() < size {
        return Err(Refusal::Room);
    }
    put_sheet(&mut bytes[..size], version, set);
    Ok(size)
}

// The sheet of a set goes into the first of the lent bytes; the answer is how many, or the one refusal, and then nothing is touched.
pub fn write_sheet(version: u32, set: TaskSet, bytes: &mut [u8]) -> Result<usize, Refusal>
    ensures { (result ≡ written version set bytes.old) × (bytes.new ≡ left version set bytes.old) }
{
    if !sheet::version_among(Sheet::VERSION_1, Sheet::VERSION_2, version) {
        return Err(Refusal::Version);
    }
    admission::admit(set)?;
    if !held(version, set) {
        return Err(Refusal::Deadlines);
    }
    write_admitted(version, set, bytes)
}
