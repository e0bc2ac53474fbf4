// The workbench's lists of task records: a lent list gathered into a set by value, a set scattered into a lent list,
// and over these two the calls that read into, write and analyse a lent list.
#![tactic(auto)]

ghost use Rattle.std.specs.Prelude.{◌≡◌};
ghost use Rattle.lists.specs.Lists.{gathered_of, scattered_of};
ghost use Rattle.lists.specs.Faces.{list_read, list_filled, list_written, list_left, list_analysed, list_times};

use analysis::Decision;
use sheet::{Reading, Refusal, Sheet, Task, TaskSet};

// Every list that is too long counts as seventeen.
const TOO_MANY: usize = Sheet::TASK_ROOM + 1;

// A lent list as a set by value.
pub fn gathered(policy: u32, list: &[Task]) -> TaskSet
    ensures { result ≡ gathered_of policy list.now }
{
    let count = list.len().min(Sheet::TASK_ROOM);
    let mut tasks = [Task::default(); Sheet::TASK_ROOM];
    tasks[..count].copy_from_slice(&list[..count]);
    TaskSet {
        policy,
        task_count: list.len().min(TOO_MANY) as u32,
        tasks,
    }
}

// The records of a set into a lent list, which keeps the rest of its content.
pub fn scattered(set: TaskSet, list: &mut [Task])
    ensures { list.new ≡ scattered_of set list.old }
{
    let count = set.task_count as usize;
    if count <= Sheet::TASK_ROOM && count <= list.len() {
        list[..count].copy_from_slice(&set.tasks[..count]);
    }
}

// What is read into a list: the version, the policy and the task count.
#[derive(Debug, Clone, Copy, PartialEq, Eq)]
pub struct ListRead {
    pub version: u32,
    pub policy: u32,
    pub task_count: u32,
}

// A sheet read into a lent list.
pub fn read_list(sheet: &[u8], list: &mut [Task]) -> Result<ListRead, Refusal>
    ensures { (result ≡ list_read sheet.now list.old) × (list.new ≡ list_filled sheet.now list.old) }
{
    let Reading { version, set } = reader::read_sheet(sheet)?;
    if list.len() < set.task_count as usize {
        return Err(Refusal::Room);
    }
    scattered(set, list);
    Ok(ListRead {
        version,
        policy: set.policy,
        task_count: set.task_count,
    })
}

// A lent list written to a sheet of that version.
pub fn write_list(
    version: u32,
    policy: u32,
    list: &[Task],
    sheet: &mut [u8],
) -> Result<usize, Refusal>
    ensures { (result ≡ list_written version policy list.now sheet.old) × (sheet.new ≡ list_left version policy list.now sheet.old) }
{
    writer::write_sheet(version, gathered(policy, list), sheet)
}

// A lent list analysed, its times to lent numbers.
pub fn analyse_list(policy: u32, list: &[Task], times: &mut [u32]) -> Result<Decision, Refusal>
    ensures { (result ≡ list_analysed policy list.now times.old) × (times.new ≡ list_times policy list.now times.old) }
{
    analysis::analyse_set(gathered(policy, list), times)
}
