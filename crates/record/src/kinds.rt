//! The nine kinds of records.

ghost use Rattle.std.specs.Prelude.{◌≡◌};
ghost use Rattle.record.specs.Kinds.{kind_of};
ghost use Rattle.record.specs.Numbered.{number_of_kind, IsKindOf};
ghost use Rattle.record.specs.Seen.{entry_of};

use crate::counts::{Row, Tally};
use fault::{Cause, Fault, Layer};

/// A kind of records, by its number.
#[derive(Clone, Copy, Debug, PartialEq, Eq)]
pub enum Kind {
    SetUp = 1,
    Open = 2,
    Step = 3,
    Close = 4,
    Opened = 33,
    Published = 34,
    Closed = 35,
    Refused = 36,
    End = 37,
}

impl Kind {
    /// The kind's number.
    pub fn number(self) -> u16
        ensures { result ≡ number_of_kind self }
    {
        self as u16
    }
}

impl TryFrom<u16> for Kind {
    type Error = Fault;

    ghost try_from_gives = { IsKindOf };

    fn try_from(number: u16) -> Result<Kind, Fault> {
        match number {
            1 => Ok(Kind::SetUp),
            2 => Ok(Kind::Open),
            3 => Ok(Kind::Step),
            4 => Ok(Kind::Close),
            33 => Ok(Kind::Opened),
            34 => Ok(Kind::Published),
            35 => Ok(Kind::Closed),
            36 => Ok(Kind::Refused),
            37 => Ok(Kind::End),
            _ => Err(Cause::KindNotAllowed(number).by(Layer::Record)),
        }
    }
}

/// A record. Events are the first four kinds, the publication's records the other five.
#[derive(Clone, Copy)]
pub enum Record<'a> {
    SetUp {
        station: u32,
        classes: u16,
        plan: u16,
        grant: u32,
    },
    Open {
        horizon: u16,
    },
    Step {
        row: Row<'a>,
    },
    Close,
    Opened {
        serial: u32,
        horizon: u16,
        held: u32,
    },
    Published {
        serial: u32,
        step: u16,
        tally: Tally<'a>,
    },
    Closed {
        serial: u32,
        steps: u16,
        spent: u32,
    },
    Refused {
        number: u16,
        layer: u16,
        place: u32,
        event: u32,
    },
    End {
        records: u32,
    },
}

impl Record<'_> {
    /// Its kind.
    pub fn kind(&self) -> Kind
        ensures { number_of_kind result ≡ kind_of (entry_of self.now) }
    {
        match self {
            Record::SetUp { .. } => Kind::SetUp,
            Record::Open { .. } => Kind::Open,
            Record::Step { .. } => Kind::Step,
            Record::Close => Kind::Close,
            Record::Opened { .. } => Kind::Opened,
            Record::Published { .. } => Kind::Published,
            Record::Closed { .. } => Kind::Closed,
            Record::Refused { .. } => Kind::Refused,
            Record::End { .. } => Kind::End,
        }
    }
}
