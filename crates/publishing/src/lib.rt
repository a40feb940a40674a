//! Publishing: events and a filled tape in, a publication out.

#![tactic(auto)]

ghost use Rattle.std.specs.Prelude.{◌≡◌, ◌≤◌, length, IfOk};
ghost use Rattle.fault.specs.Told.{answered};
ghost use Rattle.publishing.specs.Cases.{WorkedWhole};
ghost use Rattle.publishing.specs.Examples.{WorkedPublication};
ghost use Rattle.publishing.specs.Whole.{output_with, publishing};

use events::{LEAST_ROOM, no_room};
use fault::Fault;
use first::answer_events;
use output::end_publication;
use publication::InWork;

mod course;
mod events;
mod first;
mod keeper;
mod output;

/// Writes the publication of the events, with noise from a byte tape, at the start of the output, and answers how many
/// bytes it has; later bytes stay. An output of fewer than 120 bytes is refused, and nothing is stored.
pub fn publish(events: &[u8], tape: &[u8], out: &mut [u8]) -> Result<usize, Fault>
    ensures answer { answered result ≡ publishing events.now tape.now (length out.old) }
    ensures after { out.new ≡ output_with events.now tape.now out.old }
    ensures within { IfOk result (λ n. n ≤ length out.new) }
    ensures worked { WorkedWhole }
{
    if out.len() < LEAST_ROOM {
        return Err(no_room(out.len()));
    }
    let work = answer_events(events, tape, InWork::new(), out);
    Ok(end_publication(work, out))
}

/// Asks the prover for the worked publication, by the definition that stood first.
pub fn worked_publication_stands()
    ensures { WorkedPublication }
{}
