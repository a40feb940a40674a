//! Event records: what stands in an event file, by the stage of the publication.

ghost use Rattle.std.specs.Prelude.{◌≡◌, ◌≤◌, length};
ghost use Rattle.record.specs.Little.{field};
ghost use Rattle.record.specs.Reads.{body_in, refusal, rest_after};
ghost use Rattle.record.specs.Seen.{Borrows, seen};
ghost use Rattle.publication.specs.Events.{allowed, event_in};

use fault::{Cause, Layer};
use record::{Kind, Reading, read_record};

/// Whether the first event record is to come, which has to be a set-up, or a later one.
#[derive(Clone, Copy, Debug, PartialEq, Eq)]
pub enum Stage {
    First,
    Later,
}

impl Stage {
    /// Whether a record of the kind with this number may come.
    fn allows(self, number: u16) -> bool
        ensures { result ≡ allowed self number }
    {
        match Kind::try_from(number) {
            Ok(Kind::SetUp) => self == Stage::First,
            Ok(Kind::Open | Kind::Step | Kind::Close) => self == Stage::Later,
            _ => false,
        }
    }
}

/// The first event record of the bytes, and the bytes that follow it. A whole record of a kind that may not come is
/// refused for its kind; everything else is answered as by `read_record`.
pub fn read_event(bytes: &[u8], stage: Stage) -> (Reading<'_>, &[u8])
    ensures value { seen result.0 ≡ event_in stage bytes.now }
    ensures rest { result.1.now ≡ rest_after bytes.now }
    ensures borrowed { Borrows result.0 (body_in bytes.now) }
{
    let (reading, rest) = read_record(bytes);
    if rest.len() == bytes.len() {
        return (reading, rest);
    }
    let kind = kind_of(bytes);
    if !stage.allows(kind) {
        return (out_of_place(kind), rest);
    }
    (reading, rest)
}

/// The number of the kind in a header.
fn kind_of(bytes: &[u8]) -> u16
    requires { 4 ≤ length bytes.now }
    ensures { result ≡ field 2 2 bytes.now }
{
    let [_, _, low, high, ..] = bytes else {
        unreachable!();
    };
    u16::from_le_bytes([*low, *high])
}

fn out_of_place<'a>(kind: u16) -> Reading<'a>
    ensures { seen result ≡ refusal 17 kind }
{
    Reading::Faulty(Cause::KindNotAllowed(kind).by(Layer::Record))
}
