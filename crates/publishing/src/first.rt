//! The first event record, a set-up, and the station that it makes.

ghost use Rattle.std.specs.Prelude.{◌≡◌, ℕ, ◌+◌, ◌^◌, ◌<◌, ◌≤◌, List, [], length, ℤ, Ok};
ghost use Rattle.fault.specs.Told.{told};
ghost use Rattle.record.specs.Reads.{found};
ghost use Rattle.record.specs.Seen.{entry_of};
ghost use Rattle.publishing.specs.Whole.{records, records_first};
ghost use Rattle.publishing.specs.Starts.{SetUpBy, records_set_up};
ghost use Rattle.publishing.specs.Written.{Wrote};

use crate::keeper::{Keeper, misplaced};
use crate::output::put_refused;
use fault::Fault;
use finisher::{Plain, Rising};
use plan::Chosen;
use publication::{InWork, Stage, read_event};
use record::{Reading, Record};
use station::{Lawful, Setting};
use tape::{ByteTape, Tape};

/// What a set-up makes a station from, beside the tape.
#[derive(Drop)]
struct Start {
    setting: Lawful,
    plan: Chosen,
}

/// Answers the event records, from the first on.
pub(crate) fn answer_events(events: &[u8], tape: &[u8], work: InWork, out: &mut [u8]) -> InWork
    requires new { work.written ≡ 0 }
    requires room { 120 ≤ length out.old }
    ensures wrote { Wrote (records events.now tape.now (length out.old)) work out.old result out.new }
    ensures room { result.written + 8 ≤ length out.new }
{
    let (reading, rest) = read_event(events, Stage::First);
    match reading {
        Reading::Nothing => work,
        Reading::Faulty(fault) => put_refused(work, out, fault, 1),
        Reading::Found(event) => match set_up(&event) {
            Ok(start) => follow(start, ByteTape::new(tape), work, out, rest),
            Err(fault) => put_refused(work, out, fault, 1),
        },
    }
}

/// The setting and the plan of a set-up.
fn set_up(event: &Record<'_>) -> Result<Start, Fault>
    ensures { (room : ℕ) (cells : List ℤ) (bs : List ℕ) → records_first (found (entry_of event.now)) room cells bs ≡ records_set_up result room cells bs }
{
    match event {
        Record::SetUp {
            station,
            classes,
            plan,
            grant,
        } => {
            let setting = Setting {
                number: *station,
                classes: *classes,
                grant: *grant,
            };
            set_up_by(setting, *plan)
        }
        _ => Err(misplaced(event)),
    }
}

/// The setting and the plan of a set-up by its numbers: the classes are looked at first, then the plan, then the grant.
fn set_up_by(setting: Setting, number: u16) -> Result<Start, Fault>
    ensures { SetUpBy setting number result }
{
    setting.class_count()?;
    let plan = Chosen::try_from(number)?;
    let setting = Lawful::try_from(setting)?;
    Ok(Start { setting, plan })
}

/// Answers the event records behind a set-up, on a new station.
fn follow<T: Tape + Drop>(
    start: Start,
    tape: T,
    work: InWork,
    out: &mut [u8],
    events: &[u8],
) -> InWork
    requires new { work.written ≡ 0 }
    requires room { 120 ≤ length out.old }
    requires few { length events.now + 2 < 2 ^ 64 }
    ensures wrote { Wrote (records_set_up (Ok start) (length out.old) (T.cells tape) events.now) work out.old result out.new }
    ensures room { result.written + 8 ≤ length out.new }
{
    let Start { setting, plan } = start;
    let mut keeper = Keeper::new(setting, plan, tape, Rising::new(Plain));
    let work = keeper.answer_rest(work, out, events);
    keeper.end();
    work
}
