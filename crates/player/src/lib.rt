// The player: the play of a run script, tick by tick, and what each tick shows.
#![tactic(auto)]

ghost use Rattle.std.specs.Prelude.{◌≡◌};
ghost use Rattle.player.specs.Refusals.{play_number_of};
ghost use Rattle.player.specs.Answers.{moment_of, played, traced, trace_left};
ghost use Rattle.player.specs.Inside.Staging.{cast_for, refusal_by, sheet_staged};

mod course;
mod state;

use crate::course::Cast;
use scripts::Flaw;
use sheet::{Refusal, TaskSet};

// Why there is no play: one of 1 to 12, the sheet's or for want of room; 13, the script is not made as a script is; 14, one of its items.
#[derive(Debug, Clone, Copy, PartialEq, Eq)]
pub enum PlayRefusal {
    Base(Refusal),
    Malformed,
    Item(u32),
}

impl PlayRefusal {
    pub fn number(self) -> u32
        ensures { result ≡ play_number_of self }
    {
        match self {
            PlayRefusal::Base(why) => why.number(),
            PlayRefusal::Malformed => 13,
            PlayRefusal::Item(_) => 14,
        }
    }
}

impl From<Refusal> for PlayRefusal {
    ghost use Rattle.player.specs.declared.PlayRefusal.TheVariants.{Base};

    ghost from_gives = { λ refusal told. told ≡ Base refusal };

    fn from(refusal: Refusal) -> PlayRefusal {
        PlayRefusal::Base(refusal)
    }
}

impl From<Flaw> for PlayRefusal {
    ghost from_gives = { λ flaw told. told ≡ refusal_by flaw };

    fn from(flaw: Flaw) -> PlayRefusal {
        match flaw {
            Flaw::Malformed => PlayRefusal::Malformed,
            Flaw::Item(j) => PlayRefusal::Item(j),
        }
    }
}

// How a play ends: the moment and the task that misses, or the moment at which all jobs are done.
#[derive(Debug, Clone, Copy, PartialEq, Eq)]
pub enum Played {
    Missed(u32, u32),
    Done(u32),
}

impl Played {
    // The moment.
    fn moment(self) -> u32
        ensures { result ≡ moment_of self }
    {
        match self {
            Played::Missed(moment, _) => moment,
            Played::Done(moment) => moment,
        }
    }
}

// The cast of a set that plays a script.
fn cast_of(set: TaskSet, script: &[u8]) -> Cast
    ensures { result ≡ cast_for set script.now }
{
    let ordered = order::in_order(set);
    let order = ordered.places.map(|place| place.number);
    let tasks = set.tasks;
    Cast {
        count: ordered.count,
        entries: scripts::entry_count(script, ordered.count),
        order,
        tasks,
    }
}

// A sheet and a script: all of the sheet's own refusals come first, then 13, or 14 with the item; else the cast.
fn stage(sheet: &[u8], script: &[u8]) -> Result<Cast, PlayRefusal>
    ensures { result ≡ sheet_staged sheet.now script.now }
{
    let set = reader::admit_sheet(sheet)?.set;
    scripts::judge(set, script)?;
    Ok(cast_of(set, script))
}

// The play of a script for a sheet: it stops at the first miss, lower task number first, or when all jobs are done.
pub fn play(sheet: &[u8], script: &[u8]) -> Result<Played, PlayRefusal>
    ensures { result ≡ played sheet.now script.now }
{
    let cast = stage(sheet, script)?;
    Ok(course::play_on(script, &cast))
}

// The same play, and a byte for each tick of it into lent bytes: the task that has it, or idle, and whether in a locked stretch.
pub fn trace(sheet: &[u8], script: &[u8], ticks: &mut [u8]) -> Result<Played, PlayRefusal>
    ensures { (result ≡ traced sheet.now script.now ticks.old) × (ticks.new ≡ trace_left sheet.now script.now ticks.old) }
{
    let cast = stage(sheet, script)?;
    let end = course::play_on(script, &cast);
    let moment = end.moment();
    if ticks.len() < moment as usize {
        return Err(PlayRefusal::Base(Refusal::Room));
    }
    course::trace_on(script, &cast, moment, ticks);
    Ok(end)
}
