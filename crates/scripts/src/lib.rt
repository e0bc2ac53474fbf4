// Run scripts in bytes: read and judged where they lie, and put into lent bytes field by field.
#![tactic(auto)]

ghost use Rattle.std.specs.Prelude.{true, map, ◌≡◌, ◌≤◌, ◌<◌, length, take, nat_le, position, None};
ghost use Rattle.std.specs.List.{zip};
ghost use Rattle.bits.specs.Faces.{taken};
ghost use Rattle.check_word.specs.Division.{body};
ghost use Rattle.lent.specs.Checks.{first_refusal};
ghost use Rattle.records.specs.Rows.{total};
ghost use Rattle.records.specs.Sealed.{sealed_size};
ghost use Rattle.theory.specs.Tasks.{frame_count, frame};
ghost use Rattle.sheet.specs.Constants.{most_tasks};
ghost use Rattle.sheet.specs.Tasks.{task_in, records_of};
ghost use Rattle.plays.specs.Items.{standing, first_ledger, first_frame_checks, entry_checks};
ghost use Rattle.scripts.specs.Format.{first_frame_widths, count_widths, entry_widths, entry_count_width, script_width};
ghost use Rattle.scripts.specs.Reading.{script_in, first_frames, entry_count, entry_at, well_made};
ghost use Rattle.scripts.specs.Writing.{entry_numbers};
ghost use Rattle.scripts.specs.Judging.{judged, judgement};
ghost use Rattle.scripts.specs.Inside.Steps.{sound_turn, turn_after};

use plays::Entry;
use sheet::{Sheet, Task, TaskSet};

// Why a byte string is turned away: it is not made as a script is, or by its first item that is, first frames and entries counted together from 0.
#[derive(Clone, Copy, Debug, PartialEq, Eq)]
pub enum Flaw {
    Malformed,
    Item(u32),
}

// The constants of a script.
#[derive(Clone, Copy)]
pub struct Format;

impl Format {
    const FIRST_FRAME_WIDTH: usize = 4;

    const ENTRY_COUNT_WIDTH: usize = 24;

    const TASK_WIDTH: usize = 4;

    // How many fields an entry has, and where each stands.
    const ENTRY_FIELDS: usize = 4;

    const TASK_FIELD: usize = 0;

    const TICK_FIELD: usize = 1;

    const WORK_FIELD: usize = 2;

    const LOCK_FIELD: usize = 3;

    // How many bits an entry has.
    const ENTRY_WIDTH: usize = Format::TASK_WIDTH + 3 * Sheet::TIME_WIDTH;

    // The layout, stated once: the constants and the numbers of the definitions are the same. As many first frames as a set has slots for.
    pub fn first_frame_widths() -> [usize; Sheet::TASK_ROOM]
        ensures { result ≡ first_frame_widths most_tasks }
    {
        [Format::FIRST_FRAME_WIDTH; Sheet::TASK_ROOM]
    }

    pub fn count_widths() -> [usize; 1]
        ensures { result ≡ count_widths }
    {
        [Format::ENTRY_COUNT_WIDTH]
    }

    pub fn entry_widths() -> [usize; Format::ENTRY_FIELDS]
        ensures { result ≡ entry_widths }
    {
        [
            Format::TASK_WIDTH,
            Sheet::TIME_WIDTH,
            Sheet::TIME_WIDTH,
            Sheet::TIME_WIDTH,
        ]
    }
}

// How many bits the first frames, the count and so many entries take.
fn script_width(tasks: u32, entries: u32) -> usize
    ensures { result ≡ script_width tasks entries }
{
    Format::FIRST_FRAME_WIDTH * tasks as usize
        + Format::ENTRY_COUNT_WIDTH
        + Format::ENTRY_WIDTH * entries as usize
}

// How many bytes a script of so many tasks and entries has.
pub fn script_size(tasks: u32, entries: u32) -> usize
    ensures { result ≡ sealed_size (script_width tasks entries) }
{
    records::sealed_size(script_width(tasks, entries))
}

// The bytes before the check word.
fn body(script: &[u8]) -> &[u8]
    ensures { result.now ≡ body script.now }
{
    &script[..script.len().saturating_sub(check_word::SIZE)]
}

// The count of entries, where it is there.
fn count_taken(script: &[u8], tasks: u32) -> Option<u32>
    ensures { result ≡ taken (body script.now) (total (first_frame_widths tasks)) entry_count_width }
{
    bits::take_field(
        body(script),
        Format::FIRST_FRAME_WIDTH * tasks as usize,
        Format::ENTRY_COUNT_WIDTH,
    )
}

// How many entries a script of so many tasks has; none where the count is not there.
pub fn entry_count(script: &[u8], tasks: u32) -> u32
    ensures { result ≡ entry_count tasks script.now }
{
    count_taken(script, tasks).unwrap_or(0)
}

// Entry j of a script of so many tasks; a blank one where its bits are not there.
pub fn entry_at(script: &[u8], tasks: u32, j: u32) -> Entry
    ensures { result ≡ entry_at tasks script.now j }
{
    let mut numbers = [0u32; Format::ENTRY_FIELDS];
    let widths = Format::entry_widths();
    records::take_row(body(script), script_width(tasks, j), &widths, &mut numbers);
    Entry {
        task: numbers[Format::TASK_FIELD],
        tick: numbers[Format::TICK_FIELD],
        work: numbers[Format::WORK_FIELD],
        lock: numbers[Format::LOCK_FIELD],
    }
}

// The numbers of an entry, each where its field stands.
pub fn entry_numbers(entry: Entry) -> [u32; Format::ENTRY_FIELDS]
    ensures { result ≡ entry_numbers entry }
{
    let mut numbers = [0u32; Format::ENTRY_FIELDS];
    numbers[Format::TASK_FIELD] = entry.task;
    numbers[Format::TICK_FIELD] = entry.tick;
    numbers[Format::WORK_FIELD] = entry.work;
    numbers[Format::LOCK_FIELD] = entry.lock;
    numbers
}

// Whether a byte string is made as a script of so many tasks is.
fn well_made(script: &[u8], tasks: u32) -> bool
    ensures { result ≡ well_made tasks script.now }
{
    let Some(count) = count_taken(script, tasks) else {
        return false;
    };
    script.len() == script_size(tasks, count)
        && records::left_behind(body(script), script_width(tasks, count)).is_ok()
        && check_word::sealed(script)
}

// The first frames of a script of so many tasks, of no more than there are slots for; 0 where they are not there.
pub fn first_frames(script: &[u8], tasks: u32) -> [u32; Sheet::TASK_ROOM]
    ensures { result ≡ first_frames tasks script.now }
{
    let mut firsts = [0u32; Sheet::TASK_ROOM];
    let widths = Format::first_frame_widths();
    let in_use = sheet::in_use(tasks as usize, Sheet::TASK_ROOM);
    records::take_row(body(script), 0, &widths[..in_use], &mut firsts);
    firsts
}

// The first of some first frames that is no frame of its task.
fn wrong_first(tasks: &[Task], firsts: &[u32]) -> Option<usize>
    ensures { result ≡ position (λ q. nat_le (frame_count (task_in q.0)) q.1) (zip tasks.now firsts.now) }
{
    tasks.iter().zip(firsts).position(|(&task, &first)| sheet::frame_count(task) <= first as usize)
}

// Whether each first frame is a frame of its task.
fn judge_firsts(tasks: &[Task], firsts: &[u32]) -> Result<(), Flaw>
    requires { (length tasks.now ≤ most_tasks) × (length firsts.now ≡ length tasks.now) }
    ensures { result ≡ judged (first_frame_checks (map task_in tasks.now) 0 firsts.now) }
{
    match wrong_first(tasks, firsts) {
        Some(i) => Err(Flaw::Item(i as u32)),
        None => Ok(()),
    }
}

// How far the releases of a task have come: the frame of its next job, and the first tick at which it may be released.
#[derive(Clone, Copy, Debug, Default, PartialEq, Eq)]
struct Turn {
    next: u32,
    free_from: u64,
}

// Where an entry stands, by tick and then task number.
fn standing(entry: Entry) -> u64
    ensures { result ≡ standing entry }
{
    entry.tick as u64 * Sheet::MOST_TASKS as u64 + entry.task as u64
}

// Whether an entry of a task is in range, in order behind the last one, and by the run rules.
fn sound(task: Task, turn: Turn, behind: u64, entry: Entry) -> bool
    requires { turn.next < frame_count (task_in task) }
    ensures { result ≡ sound_turn (task_in task) turn behind entry }
{
    entry.lock <= task.lock
        && behind <= standing(entry)
        && turn.free_from <= entry.tick as u64
        && entry.work <= task.frames[turn.next as usize]
}

// How far they have come behind that entry.
fn after(task: Task, turn: Turn, entry: Entry) -> Turn
    requires { turn.next < frame_count (task_in task) }
    ensures { result ≡ turn_after (task_in task) turn entry }
{
    Turn {
        next: sheet::frame_after(task, turn.next),
        free_from: entry.tick as u64 + task.period as u64,
    }
}

// The entries of a script in their order, where its first frames are frames of their tasks.
fn judge_entries(tasks: &[Task], firsts: [u32; Sheet::TASK_ROOM], script: &[u8]) -> Result<(), Flaw>
    requires { (length tasks.now ≤ most_tasks) × (well_made (length tasks.now) script.now ≡ true) × (first_refusal (first_frame_checks (map task_in tasks.now) 0 (take (length tasks.now) firsts)) ≡ None) }
    ensures { result ≡ judged (entry_checks (map task_in tasks.now) (length tasks.now) (first_ledger (take (length tasks.now) firsts)) (script_in (length tasks.now) script.now).entries) }
{
    let count = tasks.len() as u32;
    let mut turns = firsts.map(|next| Turn { next, free_from: 0 });
    let mut behind: u64 = 0;
    for j in 0..entry_count(script, count) {
        let entry = entry_at(script, count, j);
        let i = entry.task as usize;
        let Some(&task) = tasks.get(i) else {
            return Err(Flaw::Item(count + j));
        };
        if !sound(task, turns[i], behind, entry) {
            return Err(Flaw::Item(count + j));
        }
        turns[i] = after(task, turns[i], entry);
        behind = standing(entry) + 1;
    }
    Ok(())
}

// How a byte string is judged as a script of a set's tasks.
pub fn judge(set: TaskSet, script: &[u8]) -> Result<(), Flaw>
    ensures { result ≡ judgement (map task_in (records_of set)) script.now }
{
    let tasks = set.tasks_in_use();
    let count = tasks.len();
    if !well_made(script, count as u32) {
        return Err(Flaw::Malformed);
    }
    let firsts = first_frames(script, count as u32);
    judge_firsts(tasks, &firsts[..count])?;
    judge_entries(tasks, firsts, script)
}
