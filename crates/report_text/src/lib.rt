// The report: a proved function from a sheet's bytes to the report's text.
#![tactic(auto)]

ghost use Rattle.std.specs.Prelude.{Err, Ok, [], ◌++◌, ◌≡◌, ◌+◌, ◌*◌, ◌≤◌, length};
ghost use Rattle.std.specs.List.{All, flat_map};
ghost use Rattle.sheet.specs.Constants.{most_frames};
ghost use Rattle.report_text.specs.Words.{decimal};
ghost use Rattle.report_text.specs.Report.{blocker_word, first_line, report};
ghost use Rattle.report_text.specs.Inside.Lines.{behind, found_words, finding_line, Printable, word_room, line_room, first_room};
ghost use Rattle.report_text.specs.Text.{text_of, report_written, report_left};

use analysis::{Finding, Verdict};
use arrayvec::ArrayVec;
use itoa::Buffer;
use sheet::{Refusal, Sheet};

// One byte more than the greatest sheet has: more need not be read to tell that a sheet is too long.
pub const ENOUGH: usize = Sheet::GREATEST_SIZE + 1;

// How long a report can be.
pub const ROOM: usize = 2048;

// The report's text: the first `length` bytes; the others are 0.
#[derive(Clone, Copy)]
pub struct Text {
    pub length: usize,
    pub bytes: [u8; ROOM],
}

// A text that is being put together.
type Page = ArrayVec<u8, ROOM>;

fn put_word(page: &mut Page, word: &[u8])
    requires { length page.old.items + length word.now ≤ 2048 }
    ensures { page.new.items ≡ page.old.items ++ word.now }
{
    page.try_extend_from_slice(word).unwrap();
}

fn put_number(page: &mut Page, n: u32)
    requires { length page.old.items + 10 ≤ 2048 }
    ensures text { page.new.items ≡ page.old.items ++ decimal n }
    ensures room { length page.new.items ≤ length page.old.items + 10 }
{
    let mut digits = Buffer::new();
    put_word(page, digits.format(n).as_bytes());
}

// A number as the next word of a line.
fn put_next(page: &mut Page, n: u32)
    requires { length page.old.items + word_room ≤ 2048 }
    ensures text { page.new.items ≡ page.old.items ++ behind (decimal n) }
    ensures room { length page.new.items ≤ length page.old.items + word_room }
{
    page.push(b' ');
    put_number(page, n);
}

fn put_times(page: &mut Page, times: &[u32])
    requires { length page.old.items + word_room * length times.now ≤ 2048 }
    ensures text { page.new.items ≡ page.old.items ++ flat_map (λ n. behind (decimal n)) times.now }
    ensures room { length page.new.items ≤ length page.old.items + word_room * length times.now }
{
    for &time in times {
        put_next(page, time);
    }
}

// The last words of a task's line.
fn put_found(page: &mut Page, f: &Finding)
    requires { (f.now.frame_count ≤ most_frames) × (length page.old.items + word_room * most_frames ≤ 2048) }
    ensures text { page.new.items ≡ page.old.items ++ flat_map behind (found_words f.now.times f.now.frame_count) }
    ensures room { length page.new.items ≤ length page.old.items + word_room * most_frames }
{
    match &f.times {
        Some(times) => put_times(page, &times[..f.frame_count as usize]),
        None => put_word(page, b" missed"),
    }
}

// The line of a task.
fn put_finding(page: &mut Page, f: &Finding)
    requires { (Printable f.now) × (length page.old.items + line_room ≤ 2048) }
    ensures text { page.new.items ≡ page.old.items ++ finding_line f.now }
    ensures room { length page.new.items ≤ length page.old.items + line_room }
{
    put_number(page, f.number);
    put_next(page, f.period);
    put_next(page, f.deadline);
    put_next(page, f.blocked);
    put_found(page, f);
    page.push(b'\n');
}

// The lines of the tasks in priority order.
fn put_findings(page: &mut Page, findings: &[Finding])
    requires { (All Printable findings.now) × (length page.old.items + line_room * length findings.now ≤ 2048) }
    ensures { page.new.items ≡ page.old.items ++ flat_map finding_line findings.now }
{
    for f in findings {
        put_finding(page, f);
    }
}

// The last word of a miss.
fn put_blocker(page: &mut Page, blocker: Option<u32>)
    requires { length page.old.items + word_room ≤ 2048 }
    ensures text { page.new.items ≡ page.old.items ++ behind (blocker_word blocker) }
    ensures room { length page.new.items ≤ length page.old.items + word_room }
{
    match blocker {
        Some(number) => put_next(page, number),
        None => put_word(page, b" -"),
    }
}

// The first line of tasks that were analysed.
fn put_verdict(page: &mut Page, verdict: Verdict, count: u32)
    requires { length page.old.items + first_room ≤ 2048 }
    ensures text { page.new.items ≡ page.old.items ++ first_line (Ok verdict) count }
    ensures room { length page.new.items ≤ length page.old.items + first_room }
{
    match verdict {
        Verdict::Holds => {
            put_word(page, b"holds");
            put_next(page, count);
        }
        Verdict::Missed(number, blocker) => {
            put_word(page, b"missed");
            put_next(page, count);
            put_next(page, number);
            put_blocker(page, blocker);
        }
    }
    page.push(b'\n');
}

// The one line of a refusal.
fn put_refusal(page: &mut Page, refusal: Refusal)
    requires { length page.old.items + first_room ≤ 2048 }
    ensures { page.new.items ≡ page.old.items ++ first_line (Err refusal) 0 }
{
    put_word(page, b"refused");
    put_next(page, refusal.number());
    page.push(b'\n');
}

// The report on a sheet, on an empty page.
fn put_report(page: &mut Page, sheet: &[u8])
    requires { page.old.items ≡ [] }
    ensures { page.new.items ≡ report sheet.now }
{
    match analysis::analysis_of_sheet(sheet) {
        Ok(a) => {
            put_verdict(page, a.verdict, a.task_count);
            put_findings(page, &a.findings[..a.task_count as usize]);
        }
        Err(refusal) => put_refusal(page, refusal),
    }
}

// The report on a sheet.
pub fn report_text(sheet: &[u8]) -> Text
    ensures { result ≡ text_of (report sheet.now) }
{
    let mut page = Page::new();
    put_report(&mut page, sheet);
    let length = page.len();
    let mut bytes = [0u8; ROOM];
    bytes[..length].copy_from_slice(&page);
    Text { length, bytes }
}

// The report on a sheet, its text to lent bytes.
pub fn write_report(sheet: &[u8], memory: &mut [u8]) -> Result<usize, Refusal>
    ensures { (result ≡ report_written sheet.now memory.old) × (memory.new ≡ report_left sheet.now memory.old) }
{
    let mut page = Page::new();
    put_report(&mut page, sheet);
    let length = page.len();
    if memory.len() < length {
        return Err(Refusal::Room);
    }
    memory[..length].copy_from_slice(&page);
    Ok(length)
}
