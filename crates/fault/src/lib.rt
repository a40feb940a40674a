//! A fault: why a call was refused, by which layer, and at which place.

#![tactic(auto)]

ghost use Rattle.std.specs.Prelude.{◌≡◌};
ghost use Rattle.fault.specs.Told.{number_of, layer_of, place_of};

use std::error::Error;
use std::fmt;

/// The layer that refuses, by its number.
#[derive(Clone, Copy, Debug, PartialEq, Eq)]
pub enum Layer {
    Record = 1,
    Station = 2,
    Account = 3,
    Plan = 4,
    Tape = 5,
    Finisher = 6,
    Publication = 7,
}

impl Layer {
    /// The layer's number, 1 to 7.
    pub fn number(self) -> u16
        ensures { result ≡ layer_of self }
    {
        self as u16
    }
}

/// Why a call was refused, with what the place is taken from.
#[derive(Clone, Copy, Debug, PartialEq, Eq)]
pub enum Cause {
    /// A number of a setting, or a plan's, that is out of range.
    OutOfRange(u32),
    /// An open while an epoch is open; its serial.
    AlreadyOpen(u16),
    /// A horizon that is not 1 to 1,024.
    Horizon(u16),
    /// Every serial has been used.
    SerialsUsedUp,
    /// More units wanted than are free; the units wanted.
    OverBudget(u32),
    /// No epoch is open.
    NoEpoch,
    /// A row with another number of counts than the station has classes.
    RowLength(usize),
    /// A count above 1,000; the first such class.
    CountTooLarge(usize),
    /// The epoch has all its steps; the horizon.
    EpochFull(u16),
    /// Too few cells on the tape; how many are left.
    TapeShort(usize),
    /// A hold that is not the open epoch's; the hold's serial.
    WrongHold(u16),
    /// A class that does not exist.
    NoSuchClass(usize),
    /// Nothing has been published in the newest epoch.
    NothingPublished,
    /// A record that ends before its announced end; the bytes from its start.
    CutShort(usize),
    /// A kind of record that is not allowed here.
    KindNotAllowed(u16),
    /// A body length, or to the writer a number of counts, that does not suit the kind.
    LengthUnfit(usize),
    /// Too few bytes left in the output; how many are left.
    NoRoom(usize),
}

impl Cause {
    /// The refusal for this cause by a layer.
    pub fn by(self, layer: Layer) -> Fault
        ensures { result ≡ record { cause = self; layer = layer } }
    {
        Fault { cause: self, layer }
    }

    /// The refusal's number.
    // by match: `as` takes no enum whose variants hold data
    pub fn number(self) -> u16
        ensures { result ≡ number_of self }
    {
        match self {
            Cause::OutOfRange(_) => 1,
            Cause::AlreadyOpen(_) => 2,
            Cause::Horizon(_) => 3,
            Cause::SerialsUsedUp => 4,
            Cause::OverBudget(_) => 5,
            Cause::NoEpoch => 6,
            Cause::RowLength(_) => 7,
            Cause::CountTooLarge(_) => 8,
            Cause::EpochFull(_) => 9,
            Cause::TapeShort(_) => 10,
            Cause::WrongHold(_) => 12,
            Cause::NoSuchClass(_) => 13,
            Cause::NothingPublished => 14,
            Cause::CutShort(_) => 16,
            Cause::KindNotAllowed(_) => 17,
            Cause::LengthUnfit(_) => 18,
            Cause::NoRoom(_) => 19,
        }
    }

    /// The place that the refusal names.
    pub fn place(self) -> u64
        ensures { result ≡ place_of self }
    {
        match self {
            Cause::OutOfRange(n) | Cause::OverBudget(n) => n as u64,
            Cause::AlreadyOpen(n) | Cause::Horizon(n) | Cause::EpochFull(n) => n as u64,
            Cause::WrongHold(n) | Cause::KindNotAllowed(n) => n as u64,
            Cause::RowLength(n) | Cause::CountTooLarge(n) | Cause::TapeShort(n) => n as u64,
            Cause::NoSuchClass(n) | Cause::CutShort(n) => n as u64,
            Cause::LengthUnfit(n) | Cause::NoRoom(n) => n as u64,
            Cause::SerialsUsedUp => 65_535,
            Cause::NoEpoch | Cause::NothingPublished => 0,
        }
    }
}

/// A refusal: its cause and the layer that found it. It goes up unchanged, by `?`.
#[derive(Clone, Copy, Debug, PartialEq, Eq)]
pub struct Fault {
    pub cause: Cause,
    pub layer: Layer,
}

impl fmt::Display for Layer {
    fn fmt<W: fmt::Write>(&self, f: &mut fmt::Formatter<W>) -> fmt::Result {
        f.write_str(match self {
            Layer::Record => "record",
            Layer::Station => "station",
            Layer::Account => "account",
            Layer::Plan => "plan",
            Layer::Tape => "tape",
            Layer::Finisher => "finisher",
            Layer::Publication => "publication",
        })
    }
}

impl fmt::Display for Cause {
    fn fmt<W: fmt::Write>(&self, f: &mut fmt::Formatter<W>) -> fmt::Result {
        match self {
            Cause::OutOfRange(n) => write!(f, "{n} is out of range"),
            Cause::AlreadyOpen(n) => write!(f, "epoch {n} is still open"),
            Cause::Horizon(n) => write!(f, "a horizon of {n} is not from 1 to 1024"),
            Cause::SerialsUsedUp => f.write_str("all 65535 serials are used up"),
            Cause::OverBudget(n) => write!(f, "{n} units are more than are free"),
            Cause::NoEpoch => f.write_str("no epoch is open"),
            Cause::RowLength(n) => write!(
                f,
                "a row of {n} counts does not fit the station's classes"
            ),
            Cause::CountTooLarge(n) => write!(f, "the count of class {n} is above 1000"),
            Cause::EpochFull(n) => write!(f, "all {n} steps of the epoch are taken"),
            Cause::TapeShort(n) => write!(f, "{n} cells left on the tape are too few"),
            Cause::WrongHold(n) => write!(f, "the hold on epoch {n} is not the open epoch's"),
            Cause::NoSuchClass(n) => write!(f, "there is no class {n}"),
            Cause::NothingPublished => f.write_str("nothing has been published yet"),
            Cause::CutShort(n) => write!(f, "the record is cut short after {n} bytes"),
            Cause::KindNotAllowed(n) => write!(f, "a record of kind {n} is not allowed here"),
            Cause::LengthUnfit(n) => write!(f, "a length of {n} does not suit the record's kind"),
            Cause::NoRoom(n) => write!(f, "{n} bytes left for output are too few"),
        }
    }
}

impl fmt::Display for Fault {
    fn fmt<W: fmt::Write>(&self, f: &mut fmt::Formatter<W>) -> fmt::Result {
        let number = self.cause.number();
        let place = self.cause.place();
        let layer = self.layer;
        let cause = self.cause;
        write!(f, "refusal {number}, {layer} layer, place {place}: {cause}")
    }
}

impl Error for Fault {}
