// Prints the report on the sheet that stands on standard input. It only moves bytes.
// A failed read, or a call with arguments, gets a line on standard error and no verdict. A failed write gets a line there too.
#![tactic(auto)]

ghost use Rattle.std.specs.Prelude.{◌≤◌, length, IfOk};

use report_text::ENOUGH;
use std::env::{Env, FillError};
use std::fs::File;
use std::io::Read;
use std::process::ExitCode;
use std::{fs, io};

// Standard output, as a path.
const OUTPUT: &str = "/dev/stdout";

// Reads until sheet is full or the input ends, which a read of no byte says. A read that fails is no end of the input.
fn read_sheet(rt: &HostRuntime, sheet: &mut [u8]) -> io::Result<usize>
    ensures { IfOk result (λ n. n ≤ length sheet.new) }
{
    let mut done = 0;
    while done < sheet.len() {
        match rt.stdin().read(&mut sheet[done..])? {
            0 => break,
            more => done += more,
        }
    }
    Ok(done)
}

// Some file systems tell of a failed write only when the file is stored. A regular file that can be opened anew is stored, nothing else.
fn store(rt: &HostRuntime) -> io::Result<()> {
    if let Ok(output) = fs::metadata(rt, OUTPUT)
        && output.is_file()
        && let Ok(file) = File::open(rt, OUTPUT)
    {
        return file.sync_data();
    }
    Ok(())
}

fn print(rt: &HostRuntime, text: &[u8]) -> io::Result<()> {
    rt.write_all(text)?;
    store(rt)
}

// Says on standard error what failed and why; the status is 1.
fn fail(rt: &HostRuntime, what: &str, error: io::Error) -> ExitCode {
    let _ = eprintln!(rt; "report: {what}: {error}");
    ExitCode::FAILURE
}

fn print_report(rt: &HostRuntime, sheet: &[u8]) -> ExitCode {
    let text = report_text::report_text(sheet);
    match print(rt, &text.bytes[..text.length]) {
        Ok(()) => ExitCode::SUCCESS,
        Err(e) => fail(rt, "standard output cannot be written", e),
    }
}

fn main(rt: HostRuntime) -> ExitCode {
    // Argument 0 is the program's name.
    if !matches!(rt.arg(1, &mut []), Err(FillError::NotPresent)) {
        let _ = eprintln!(rt; "report: takes no arguments (usage: report < SHEET)");
        return ExitCode::SUCCESS;
    }
    let mut sheet = [0u8; ENOUGH];
    match read_sheet(&rt, &mut sheet) {
        Ok(n) => print_report(&rt, &sheet[..n]),
        Err(e) => fail(&rt, "standard input cannot be read", e),
    }
}
