// What we sign for, of the functions themselves: each calls one entry, and its contract is the theorem, or for a lent list of records that the
// call is one of which the theorems speak. They are proved and never called.
#![tactic(auto)]

ghost use Rattle.std.specs.Prelude.{map, take};
ghost use Rattle.sheet.specs.Tasks.{task_in};
ghost use Rattle.sheet.specs.Reading.{policy_of, tasks_of};
ghost use Rattle.signed.specs.Calls.{ReadList, ReadListC, WriteList, WriteListC, AnalyseList, AnalyseListC};
ghost use Rattle.signed.specs.Claims.{in_numbers, in_bytes, outcome_told, Signed, OutcomeSigned};
ghost use Rattle.signed.specs.Numbers.{said_by, written_by, decision_by, played_by, worst_by};
ghost use Rattle.signed.specs.Plays.{PlaySigned, TraceSigned};
ghost use Rattle.signed.specs.WorstRuns.{WorstSigned};
ghost use Rattle.signed.specs.Conversions.{ConvertSigned};
ghost use Rattle.signed.specs.Reports.{words_in, said_in, text_in, ReportSigned, ReportLeft};

use analysis::Decision;
use lists::ListRead;
use player::{PlayRefusal, Played};
use report_text::Text;
use sheet::{Refusal, Sheet, Task, TaskSet};

fn analyse_set(
    policy: u32,
    count: u32,
    tasks: [Task; Sheet::TASK_ROOM],
    times: &mut [u32],
) -> Result<Decision, Refusal>
    ensures { OutcomeSigned policy (map task_in (take count tasks)) in_numbers times.old times.new (outcome_told result) }
{
    let set = TaskSet {
        policy,
        task_count: count,
        tasks,
    };
    analysis::analyse_set(set, times)
}

fn analyse_sheet(bytes: &[u8], times: &mut [u32]) -> Result<Decision, Refusal>
    ensures { OutcomeSigned (policy_of bytes.now) (tasks_of bytes.now) in_numbers times.old times.new (outcome_told result) }
{
    analysis::analyse_sheet(bytes, times)
}

fn check_sheet(sheet: &[u8], times: &mut [u8]) -> u32
    ensures { Signed (policy_of sheet.now) (tasks_of sheet.now) in_bytes times.old times.new (said_by result) }
{
    workbench::burrbeech_check_sheet(sheet, times)
}

fn analyse_sheet_from_c(sheet: &[u8], times: &mut [u32]) -> u64
    ensures { OutcomeSigned (policy_of sheet.now) (tasks_of sheet.now) in_numbers times.old times.new (outcome_told (decision_by result)) }
{
    workbench::burrbeech_analyse_sheet(sheet, times)
}

fn write_report(sheet: &[u8], text: &mut [u8]) -> Result<usize, Refusal>
    ensures { ReportLeft (policy_of sheet.now) (tasks_of sheet.now) text.old text.new result }
{
    report_text::write_report(sheet, text)
}

fn report_from_c(sheet: &[u8], text: &mut [u8]) -> u64
    ensures { ReportLeft (policy_of sheet.now) (tasks_of sheet.now) text.old text.new (written_by result) }
{
    workbench::burrbeech_report(sheet, text)
}

fn report_text(sheet: &[u8]) -> Text
    ensures { ReportSigned (policy_of sheet.now) (tasks_of sheet.now) (text_in result) (said_in (words_in (text_in result))) }
{
    report_text::report_text(sheet)
}

fn read_list(sheet: &[u8], list: &mut [Task]) -> Result<ListRead, Refusal>
    ensures { ReadList sheet.now list.old result list.new }
{
    lists::read_list(sheet, list)
}

fn read_list_from_c(sheet: &[u8], list: &mut [Task]) -> u64
    ensures { ReadListC sheet.now list.old result list.new }
{
    workbench::burrbeech_read_list(sheet, list)
}

fn write_list(version: u32, policy: u32, list: &[Task], sheet: &mut [u8]) -> Result<usize, Refusal>
    ensures { WriteList version policy list.now sheet.old result sheet.new }
{
    lists::write_list(version, policy, list, sheet)
}

fn write_list_from_c(version: u32, policy: u32, list: &[Task], sheet: &mut [u8]) -> u64
    ensures { WriteListC version policy list.now sheet.old result sheet.new }
{
    workbench::burrbeech_write_list(version, policy, list, sheet)
}

fn convert(version: u32, sheet: &[u8], out: &mut [u8]) -> Result<usize, Refusal>
    ensures { ConvertSigned version sheet.now out.old result out.new }
{
    converter::convert(version, sheet, out)
}

fn convert_from_c(version: u32, sheet: &[u8], out: &mut [u8]) -> u64
    ensures { ConvertSigned version sheet.now out.old (written_by result) out.new }
{
    workbench::burrbeech_convert(version, sheet, out)
}

fn analyse_list(policy: u32, list: &[Task], times: &mut [u32]) -> Result<Decision, Refusal>
    ensures { AnalyseList policy list.now times.old result times.new }
{
    lists::analyse_list(policy, list, times)
}

fn analyse_list_from_c(policy: u32, list: &[Task], times: &mut [u32]) -> u64
    ensures { AnalyseListC policy list.now times.old result times.new }
{
    workbench::burrbeech_analyse_list(policy, list, times)
}

fn play(sheet: &[u8], script: &[u8]) -> Result<Played, PlayRefusal>
    ensures { PlaySigned sheet.now script.now result }
{
    player::play(sheet, script)
}

fn trace(sheet: &[u8], script: &[u8], ticks: &mut [u8]) -> Result<Played, PlayRefusal>
    ensures { TraceSigned sheet.now script.now ticks.old result ticks.new }
{
    player::trace(sheet, script, ticks)
}

fn play_from_c(sheet: &[u8], script: &[u8]) -> u64
    ensures { PlaySigned sheet.now script.now (played_by result) }
{
    workbench::burrbeech_play(sheet, script)
}

fn trace_from_c(sheet: &[u8], script: &[u8], ticks: &mut [u8]) -> u64
    ensures { TraceSigned sheet.now script.now ticks.old (played_by result) ticks.new }
{
    workbench::burrbeech_trace(sheet, script, ticks)
}

fn worst_run(sheet: &[u8], script: &mut [u8]) -> Result<Option<usize>, Refusal>
    ensures { WorstSigned sheet.now script.old result script.new }
{
    worst::worst_run(sheet, script)
}

fn worst_run_from_c(sheet: &[u8], script: &mut [u8]) -> u64
    ensures { WorstSigned sheet.now script.old (worst_by result) script.new }
{
    workbench::burrbeech_worst_run(sheet, script)
}
