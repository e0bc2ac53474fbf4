// Every entry for C, which `workbench_c` gives to C. `burrbeech_check_sheet` answers as the scope says; each other entry is a call that Rattle has too, and answers its number.
#![tactic(auto)]

ghost use Rattle.std.specs.Prelude.{◌≡◌, ℕ, ◌*◌, ◌^◌, ◌<◌, ◌≤◌, length};
ghost use Rattle.lent.specs.Lent.{answered, laid};
ghost use Rattle.sheet.specs.declared.Refusal.TheVariants.{Room};
ghost use Rattle.analysis.specs.Answers.{sheet_decision, sheet_left};
ghost use Rattle.analysis.specs.Findings.{times_by_number};
ghost use Rattle.analysis.specs.Inside.Numbered.{Numbered};
ghost use Rattle.lists.specs.Faces.{list_read, list_filled, list_written, list_left, list_analysed, list_times};
ghost use Rattle.converter.specs.Converting.{converted, converted_left};
ghost use Rattle.report_text.specs.Text.{report_written, report_left};
ghost use Rattle.player.specs.Answers.{played, traced, trace_left};
ghost use Rattle.worst.specs.Writing.{worst_answer, worst_left};
ghost use Rattle.workbench.specs.Numbers.{byte, reason_number, refused_number, play_refused_number, answer_number, read_detail, written_detail, verdict_detail, decision_detail, played_detail, worst_detail, read_number, written_number, decision_number, played_number, worst_number};
ghost use Rattle.workbench.specs.Entry.{task_size, as_bytes, checking, entry_number, entry_left};

use analysis::{Analysis, Decision, Verdict};
use lists::ListRead;
use player::{PlayRefusal, Played};
use sheet::{Reason, Refusal, Sheet, Task};

// The bytes of a time, and of all times of a task.
const TIME_SIZE: usize = 4;

const TASK_SIZE: usize = TIME_SIZE * Sheet::FRAME_ROOM;

// The times of a task, four bytes each, high byte first.
fn put_task_times(bytes: &mut [u8], times: &[u32; Sheet::FRAME_ROOM])
    requires { length bytes.old ≡ task_size }
    ensures { bytes.new ≡ as_bytes times.now }
{
    for (k, time) in times.iter().enumerate() {
        let at = TIME_SIZE * k;
        bytes[at..at + TIME_SIZE].copy_from_slice(&time.to_be_bytes());
    }
}

// The times of an analysis, each task's at its number.
fn put_times(a: &Analysis, bytes: &mut [u8])
    requires { (Numbered a.now) × (task_size * a.now.task_count ≤ length bytes.old) }
    ensures { bytes.new ≡ laid (as_bytes (times_by_number a.now)) bytes.old }
{
    for found in &a.findings[..a.task_count as usize] {
        let at = TASK_SIZE * found.number as usize;
        put_task_times(
            &mut bytes[at..at + TASK_SIZE],
            &found.times.unwrap_or([0; Sheet::FRAME_ROOM]),
        );
    }
}

// Analyses the sheet, its times in four bytes each to lent bytes.
fn check(sheet: &[u8], times: &mut [u8]) -> Result<Verdict, Refusal>
    ensures { (result ≡ answered Room (checking sheet.now) times.old) × (times.new ≡ entry_left sheet.now times.old) }
{
    let a = analysis::analysis_of_sheet(sheet)?;
    if times.len() < TASK_SIZE * a.task_count as usize {
        return Err(Refusal::Room);
    }
    put_times(&a, times);
    Ok(a.verdict)
}

// Analyses the sheet: 0 for holds, 1 to 12 for a refusal, 100 + 17p + b for a miss of task p with blocker b (16 for none).
pub fn burrbeech_check_sheet(sheet: &[u8], times: &mut [u8]) -> u32
    ensures { (result ≡ entry_number sheet.now times.old) × (times.new ≡ entry_left sheet.now times.old) }
{
    analysis::code(check(sheet, times)) as u32
}

// Eight bits hold the refusal's number, the detail stands above them; the parts of a detail take eight bits each, an outcome sixteen.
const BYTE: u64 = 256;

const TWO_BYTES: u64 = BYTE * BYTE;

const FOUR_BYTES: u64 = TWO_BYTES * TWO_BYTES;

// Why a call was turned away, as a number.
trait Refused {
    ghost refused_says: { Self → ℕ };

    fn refused_number(self) -> u64
        requires { refused_says self < 2 ^ 64 }
        ensures { result ≡ refused_says self };
}

// What is answered beside no refusal, as a number that stands above eight bits.
trait Detail {
    ghost detail_says: { Self → ℕ };

    fn detail(self) -> u64
        requires { byte * detail_says self < 2 ^ 64 }
        ensures { result ≡ detail_says self };
}

// The one number of an answer.
fn answer_number<T: Detail, E: Refused>(answer: Result<T, E>) -> u64
    requires { answer_number T.detail_says E.refused_says answer < 2 ^ 64 }
    ensures { result ≡ answer_number T.detail_says E.refused_says answer }
{
    match answer {
        Ok(told) => BYTE * told.detail(),
        Err(why) => why.refused_number(),
    }
}

fn reason_number(why: Reason) -> u64
    ensures { result ≡ reason_number why }
{
    why.frame as u64 + BYTE * (why.length as u64 + BYTE * why.other as u64)
}

impl Refused for Refusal {
    ghost refused_says = { refused_number };

    fn refused_number(self) -> u64 {
        self.number() as u64 + BYTE * (self.task() as u64 + BYTE * reason_number(self.reason()))
    }
}

impl Refused for PlayRefusal {
    ghost refused_says = { play_refused_number };

    fn refused_number(self) -> u64 {
        match self {
            PlayRefusal::Base(why) => why.refused_number(),
            PlayRefusal::Malformed => self.number() as u64,
            PlayRefusal::Item(item) => self.number() as u64 + BYTE * item as u64,
        }
    }
}

impl Detail for ListRead {
    ghost detail_says = { read_detail };

    fn detail(self) -> u64 {
        self.task_count as u64 + BYTE * (self.policy as u64 + BYTE * self.version as u64)
    }
}

// The bytes written.
impl Detail for usize {
    ghost detail_says = { written_detail };

    fn detail(self) -> u64 {
        self as u64
    }
}

impl Detail for Verdict {
    ghost detail_says = { verdict_detail };

    fn detail(self) -> u64 {
        match self {
            Verdict::Holds => 0,
            Verdict::Missed(task, blocker) => {
                1 + Verdict::BLOCKERS * task as u64 + analysis::blocker_code(blocker) as u64
            }
        }
    }
}

impl Detail for Decision {
    ghost detail_says = { decision_detail };

    fn detail(self) -> u64 {
        self.verdict.detail() + TWO_BYTES * self.task_count as u64
    }
}

impl Detail for Played {
    ghost detail_says = { played_detail };

    fn detail(self) -> u64 {
        match self {
            Played::Missed(tick, task) => tick as u64 + FOUR_BYTES * task as u64,
            Played::Done(tick) => tick as u64 + FOUR_BYTES * Sheet::MOST_TASKS as u64,
        }
    }
}

// The bytes of a worst run, none where the set holds.
impl Detail for Option<usize> {
    ghost detail_says = { worst_detail };

    fn detail(self) -> u64 {
        self.map_or(0, |n| n as u64)
    }
}

// A sheet read into the workbench's own records.
pub fn burrbeech_read_list(sheet: &[u8], list: &mut [Task]) -> u64
    ensures { (result ≡ read_number (list_read sheet.now list.old)) × (list.new ≡ list_filled sheet.now list.old) }
{
    answer_number(lists::read_list(sheet, list))
}

// The workbench's own records written to a sheet of that version.
pub fn burrbeech_write_list(version: u32, policy: u32, list: &[Task], sheet: &mut [u8]) -> u64
    ensures { (result ≡ written_number (list_written version policy list.now sheet.old)) × (sheet.new ≡ list_left version policy list.now sheet.old) }
{
    answer_number(lists::write_list(version, policy, list, sheet))
}

// A sheet of the other version converted to this one.
pub fn burrbeech_convert(version: u32, sheet: &[u8], out: &mut [u8]) -> u64
    ensures { (result ≡ written_number (converted version sheet.now out.old)) × (out.new ≡ converted_left version sheet.now out.old) }
{
    answer_number(converter::convert(version, sheet, out))
}

// The workbench's own records analysed, the times to lent numbers.
pub fn burrbeech_analyse_list(policy: u32, list: &[Task], times: &mut [u32]) -> u64
    ensures { (result ≡ decision_number (list_analysed policy list.now times.old)) × (times.new ≡ list_times policy list.now times.old) }
{
    answer_number(lists::analyse_list(policy, list, times))
}

// A sheet analysed, the times to lent numbers.
pub fn burrbeech_analyse_sheet(sheet: &[u8], times: &mut [u32]) -> u64
    ensures { (result ≡ decision_number (sheet_decision sheet.now times.old)) × (times.new ≡ sheet_left sheet.now times.old) }
{
    answer_number(analysis::analyse_sheet(sheet, times))
}

// The report on a sheet, admitted or not, its text to lent bytes.
pub fn burrbeech_report(sheet: &[u8], text: &mut [u8]) -> u64
    ensures { (result ≡ written_number (report_written sheet.now text.old)) × (text.new ≡ report_left sheet.now text.old) }
{
    answer_number(report_text::write_report(sheet, text))
}

// The play of a script for a sheet.
pub fn burrbeech_play(sheet: &[u8], script: &[u8]) -> u64
    ensures { result ≡ played_number (played sheet.now script.now) }
{
    answer_number(player::play(sheet, script))
}

// The same play, and a byte for each tick of it to lent bytes.
pub fn burrbeech_trace(sheet: &[u8], script: &[u8], ticks: &mut [u8]) -> u64
    ensures { (result ≡ played_number (traced sheet.now script.now ticks.old)) × (ticks.new ≡ trace_left sheet.now script.now ticks.old) }
{
    answer_number(player::trace(sheet, script, ticks))
}

// The worst run of a set that misses, written as a script.
pub fn burrbeech_worst_run(sheet: &[u8], script: &mut [u8]) -> u64
    ensures { (result ≡ worst_number (worst_answer sheet.now script.old)) × (script.new ≡ worst_left sheet.now script.old) }
{
    answer_number(worst::worst_run(sheet, script))
}
