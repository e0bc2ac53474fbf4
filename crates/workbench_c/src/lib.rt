// Every entry of `workbench` as C calls it.
#![tactic(auto)]

ghost use Rattle.std.specs.Prelude.{◌≡◌};
ghost use Rattle.analysis.specs.Answers.{sheet_decision, sheet_left};
ghost use Rattle.lists.specs.Faces.{list_read, list_filled, list_written, list_left, list_analysed, list_times};
ghost use Rattle.converter.specs.Converting.{converted, converted_left};
ghost use Rattle.report_text.specs.Text.{report_written, report_left};
ghost use Rattle.player.specs.Answers.{played, traced, trace_left};
ghost use Rattle.worst.specs.Writing.{worst_answer, worst_left};
ghost use Rattle.workbench.specs.Numbers.{read_number, written_number, decision_number, played_number, worst_number};
ghost use Rattle.workbench.specs.Entry.{entry_number, entry_left};

use sheet::Task;

// A sheet analysed, as the scope says.
#[unsafe(no_mangle)]
pub extern "C" fn burrbeech_check_sheet(sheet: &[u8], times: &mut [u8]) -> u32
    ensures { (result ≡ entry_number sheet.now times.old) × (times.new ≡ entry_left sheet.now times.old) }
{
    workbench::burrbeech_check_sheet(sheet, times)
}

// A sheet read into records.
#[unsafe(no_mangle)]
pub extern "C" fn burrbeech_read_list(sheet: &[u8], list: &mut [Task]) -> u64
    ensures { (result ≡ read_number (list_read sheet.now list.old)) × (list.new ≡ list_filled sheet.now list.old) }
{
    workbench::burrbeech_read_list(sheet, list)
}

// Records written to a sheet of that version.
#[unsafe(no_mangle)]
pub extern "C" fn burrbeech_write_list(
    version: u32,
    policy: u32,
    list: &[Task],
    sheet: &mut [u8],
) -> u64
    ensures { (result ≡ written_number (list_written version policy list.now sheet.old)) × (sheet.new ≡ list_left version policy list.now sheet.old) }
{
    workbench::burrbeech_write_list(version, policy, list, sheet)
}

// A sheet of the other version converted to this one.
#[unsafe(no_mangle)]
pub extern "C" fn burrbeech_convert(version: u32, sheet: &[u8], out: &mut [u8]) -> u64
    ensures { (result ≡ written_number (converted version sheet.now out.old)) × (out.new ≡ converted_left version sheet.now out.old) }
{
    workbench::burrbeech_convert(version, sheet, out)
}

// Records analysed, the times to lent numbers.
#[unsafe(no_mangle)]
pub extern "C" fn burrbeech_analyse_list(policy: u32, list: &[Task], times: &mut [u32]) -> u64
    ensures { (result ≡ decision_number (list_analysed policy list.now times.old)) × (times.new ≡ list_times policy list.now times.old) }
{
    workbench::burrbeech_analyse_list(policy, list, times)
}

// A sheet analysed, the times to lent numbers.
#[unsafe(no_mangle)]
pub extern "C" fn burrbeech_analyse_sheet(sheet: &[u8], times: &mut [u32]) -> u64
    ensures { (result ≡ decision_number (sheet_decision sheet.now times.old)) × (times.new ≡ sheet_left sheet.now times.old) }
{
    workbench::burrbeech_analyse_sheet(sheet, times)
}

// The report on a sheet.
#[unsafe(no_mangle)]
pub extern "C" fn burrbeech_report(sheet: &[u8], text: &mut [u8]) -> u64
    ensures { (result ≡ written_number (report_written sheet.now text.old)) × (text.new ≡ report_left sheet.now text.old) }
{
    workbench::burrbeech_report(sheet, text)
}

// The play of a script for a sheet.
#[unsafe(no_mangle)]
pub extern "C" fn burrbeech_play(sheet: &[u8], script: &[u8]) -> u64
    ensures { result ≡ played_number (played sheet.now script.now) }
{
    workbench::burrbeech_play(sheet, script)
}

// The same play, and a byte for each tick of it.
#[unsafe(no_mangle)]
pub extern "C" fn burrbeech_trace(sheet: &[u8], script: &[u8], ticks: &mut [u8]) -> u64
    ensures { (result ≡ played_number (traced sheet.now script.now ticks.old)) × (ticks.new ≡ trace_left sheet.now script.now ticks.old) }
{
    workbench::burrbeech_trace(sheet, script, ticks)
}

// The worst run of a set that misses, as a script.
#[unsafe(no_mangle)]
pub extern "C" fn burrbeech_worst_run(sheet: &[u8], script: &mut [u8]) -> u64
    ensures { (result ≡ worst_number (worst_answer sheet.now script.old)) × (script.new ≡ worst_left sheet.now script.old) }
{
    workbench::burrbeech_worst_run(sheet, script)
}
