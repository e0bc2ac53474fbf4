// The worst run of a missed set, written as a run script.
#![tactic(auto)]

ghost use Rattle.std.specs.Prelude.{map, ◌≡◌, ◌+◌, ◌^◌, ◌≤◌, ◌<◌, length, Some};
ghost use Rattle.theory.specs.Tasks.{frame_count};
ghost use Rattle.lent.specs.Lent.{answered, left_after};
ghost use Rattle.records.specs.Rows.{packed};
ghost use Rattle.records.specs.Faces.{end_of};
ghost use Rattle.records.specs.Inside.Steps.{Placed};
ghost use Rattle.sheet.specs.Constants.{most_tasks, greatest_time};
ghost use Rattle.sheet.specs.Tasks.{task_in, records_of};
ghost use Rattle.sheet.specs.declared.Refusal.TheVariants.{Room};
ghost use Rattle.admission.specs.Judged.{shape_of};
ghost use Rattle.order.specs.Claims.{Permutes};
ghost use Rattle.order.specs.Order.{ordered_set};
ghost use Rattle.order.specs.Ordered.{tasks_in_order, numbers_of};
ghost use Rattle.analysis.specs.Misses.{miss_in};
ghost use Rattle.analysis.specs.Inside.Steps.{RightlyJudged, ShapesStand};
ghost use Rattle.scripts.specs.Format.{entry_widths};
ghost use Rattle.scripts.specs.Writing.{entry_numbers, entries_bits, script_of, EntryFits};
ghost use Rattle.worst.specs.Writing.{worst_answer, worst_left};
ghost use Rattle.worst.specs.Inside.Plans.{series_for, role_by, work_with, releases_to, next_entry, behind, SoundPlan, plan_entries, plan_script, head_bits};
ghost use Rattle.worst.specs.Inside.Steps.{Soonest, PlanFor, set_writing};

use admission::{Judged, Shape};
use analysis::MissedFrame;
use order::Ordered;
use plays::Entry;
use scripts::Format;
use sheet::{Refusal, Sheet, Task};

// The frame whose worst run it is: the place of its task, the frame, the place of the blocker, and the deadline.
#[derive(Clone, Copy)]
struct Case {
    place: u32,
    frame: u32,
    blocker: Option<u32>,
    end: u32,
}

// The releases of a task: the tick of the next, how far apart they are, the frame of the next job, and the lock.
#[derive(Clone, Copy, Default)]
struct Series {
    opens: u32,
    step: u32,
    next: u32,
    lock: u32,
}

impl Series {
    // How many releases there are up to a tick.
    fn releases_to(self, end: u32) -> u32
        requires { (1 ≤ self.step) × (end ≤ greatest_time) }
        ensures { result ≡ releases_to self.opens self.step end }
    {
        if end < self.opens {
            return 0;
        }
        (end - self.opens) / self.step + 1
    }

    // The work of the next job: the lock where there is one, else its frame's time.
    fn work(self, task: Task) -> u32
        requires { self.next < frame_count (task_in task) }
        ensures { result ≡ work_with (task_in task) self.next self.lock }
    {
        if self.lock == 0 {
            task.frames[self.next as usize]
        } else {
            self.lock
        }
    }

    // The entry of the next release.
    fn entry(self, number: u32, task: Task) -> Entry
        requires { self.next < frame_count (task_in task) }
        ensures { result ≡ next_entry number (task_in task) self }
    {
        Entry {
            task: number,
            tick: self.opens,
            work: self.work(task),
            lock: self.lock,
        }
    }

    // Behind the next release.
    fn advance(&mut self, task: Task)
        requires { (self.old.next < frame_count (task_in task)) × (self.old.opens + self.old.step < 2 ^ 32) }
        ensures { self.new ≡ behind (task_in task) self.old }
    {
        self.opens += self.step;
        self.next = sheet::frame_after(task, self.next);
    }
}

// The releases of all tasks by number, up to the tick `end`.
#[derive(Clone, Copy)]
struct Plan {
    count: u32,
    end: u32,
    tasks: [Task; Sheet::TASK_ROOM],
    series: [Series; Sheet::TASK_ROOM],
}

// The blocker is released before all others.
const BLOCKER_AT: u32 = 0;

const OTHERS_AT: u32 = BLOCKER_AT + 1;

// The releases of the task at place q: a higher task's from tick 1 on, a period apart, the frame's own job at tick 1, the blocker's before all others.
fn series_of(case: Case, q: u32, task: Task, shape: Shape) -> Series
    requires { (case.end ≤ greatest_time) × (shape ≡ shape_of (task_in task)) }
    ensures { result ≡ series_for (task_in task) case.frame case.end (role_by case.place case.blocker q) }
{
    // behind the last tick of the run: there is no further release
    let behind = case.end + 1;
    if q < case.place {
        Series {
            opens: OTHERS_AT,
            step: task.period,
            next: shape.start,
            lock: 0,
        }
    } else if q == case.place {
        Series {
            opens: OTHERS_AT,
            step: behind,
            next: case.frame,
            lock: 0,
        }
    } else if case.blocker == Some(q) {
        Series {
            opens: BLOCKER_AT,
            step: behind,
            next: admission::largest_frame(task),
            lock: task.lock,
        }
    } else {
        Series {
            opens: behind,
            step: behind,
            next: 0,
            lock: 0,
        }
    }
}

// The releases of all tasks, each at its number.
fn plan_for(o: Ordered, judged: Judged, case: Case) -> Plan
    requires stand { ShapesStand o judged.shapes }
    requires numbered { Permutes (length (tasks_in_order o)) (numbers_of o) }
    requires short { case.end ≤ greatest_time }
    ensures { PlanFor o judged.set.tasks case result }
{
    let places = o.in_use();
    let mut series = [Series::default(); Sheet::TASK_ROOM];
    for (q, place) in places.iter().enumerate() {
        let i = place.number as usize;
        series[i] = series_of(case, q as u32, place.task, judged.shapes[i]);
    }
    Plan {
        count: places.len() as u32,
        end: case.end,
        tasks: judged.set.tasks,
        series,
    }
}

// How many entries a plan has.
fn entry_count(plan: Plan) -> u32
    requires { SoundPlan plan }
    ensures { result ≡ length (plan_entries plan) }
{
    let mut total = 0;
    for series in &plan.series[..plan.count as usize] {
        total += series.releases_to(plan.end);
    }
    total
}

// First frames and the count of all entries.
fn put_head(bytes: &mut [u8], plan: Plan, entries: u32) -> usize
    requires { SoundPlan plan × (entries ≡ length (plan_entries plan)) × (length (head_bits plan) ≤ end_of (length bytes.old)) }
    ensures { Placed bytes.old 0 (head_bits plan) bytes.new result }
{
    let count = plan.count as usize;
    let per_task = Format::first_frame_widths();
    let firsts = plan.series.map(|series| series.next);
    let at = records::append_row(bytes, 0, &per_task[..count], &firsts[..count]);
    let widths = Format::count_widths();
    records::append_row(bytes, at, &widths, &[entries])
}

// The fields of one entry.
fn put_entry(bytes: &mut [u8], at: usize, entry: Entry) -> usize
    requires { EntryFits entry × (at + length (packed entry_widths (entry_numbers entry)) ≤ end_of (length bytes.old)) }
    ensures { Placed bytes.old at (packed entry_widths (entry_numbers entry)) bytes.new result }
{
    let widths = Format::entry_widths();
    let numbers = scripts::entry_numbers(entry);
    records::append_row(bytes, at, &widths, &numbers)
}

// The task that is released next, of several the lowest-numbered.
fn soonest(series: &[Series]) -> usize
    requires { 1 ≤ length series.now }
    ensures { Soonest series.now result }
{
    let mut first = 0;
    for (i, next) in series.iter().enumerate() {
        if next.opens < series[first].opens {
            first = i;
        }
    }
    first
}

// The entries in their order: each is of the task that is released next.
fn put_entries(bytes: &mut [u8], at: usize, plan: Plan) -> usize
    requires { SoundPlan plan × (at + length (entries_bits (plan_entries plan)) ≤ end_of (length bytes.old)) }
    ensures { Placed bytes.old at (entries_bits (plan_entries plan)) bytes.new result }
{
    let count = plan.count as usize;
    let mut series = plan.series;
    let mut end = at;
    let mut i = soonest(&series[..count]);
    while series[i].opens <= plan.end {
        let task = plan.tasks[i];
        end = put_entry(bytes, end, series[i].entry(i as u32, task));
        series[i].advance(task);
        i = soonest(&series[..count]);
    }
    end
}

// The whole script into as many bytes as it has: first frames, count, entries, fill and check word.
fn put_script(bytes: &mut [u8], plan: Plan, entries: u32)
    requires { SoundPlan plan × (entries ≡ length (plan_entries plan)) × (length bytes.old ≡ length (script_of (plan_script plan))) }
    ensures { bytes.new ≡ script_of (plan_script plan) }
{
    let at = put_head(bytes, plan, entries);
    let end = put_entries(bytes, at, plan);
    records::close(bytes, end);
}

// The worst run of the missed frame of an admitted set.
fn write_frame(
    judged: Judged,
    missed: MissedFrame,
    script: &mut [u8],
) -> Result<Option<usize>, Refusal>
    requires judged { RightlyJudged judged }
    requires misses { miss_in (ordered_set judged.set.policy (map task_in (records_of judged.set))) ≡ Some missed }
    ensures { (result ≡ answered Room (set_writing judged.set) script.old) × (script.new ≡ left_after Room (set_writing judged.set) script.old) }
{
    let o = order::in_order(judged.set);
    let case = Case {
        place: missed.place,
        frame: missed.frame,
        blocker: order::blocker_of(o, missed.place),
        end: sheet::deadline_of(o.places[missed.place as usize].task, missed.frame as usize),
    };
    let plan = plan_for(o, judged, case);
    let entries = entry_count(plan);
    let size = scripts::script_size(plan.count, entries);
    if script.len() < size {
        return Err(Refusal::Room);
    }
    put_script(&mut script[..size], plan, entries);
    Ok(Some(size))
}

// Of a sheet whose set is missed, writes the worst run of the named task's first frame without a response time; a set that holds is answered so, whatever the room.
pub fn worst_run(sheet: &[u8], script: &mut [u8]) -> Result<Option<usize>, Refusal>
    ensures { (result ≡ worst_answer sheet.now script.old) × (script.new ≡ worst_left sheet.now script.old) }
{
    let judged = reader::admit_sheet(sheet)?;
    match analysis::missed_frame(judged.set) {
        None => Ok(None),
        Some(missed) => write_frame(judged, missed, script),
    }
}
