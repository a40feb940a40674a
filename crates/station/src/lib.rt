//! A station: it counts boot outcomes by class, and publishes the counts with noise that its plan adds up from the
//! cells of a tape.

#![tactic(auto)]

ghost use Rattle.std.specs.Prelude.{◌≡◌, ◌≤◌};
ghost use Rattle.station.specs.Phases.{horizon_in, units_in};

use account::Account;
use table::Table;

mod calls;
mod hold;
mod making;
mod row;
mod table;

pub use hold::Hold;

/// What a station is made with: its number, its number of classes and the units that it is granted.
#[derive(Clone, Copy, Debug, PartialEq, Eq)]
pub struct Setting {
    pub number: u32,
    pub classes: u16,
    pub grant: u32,
}

/// A setting that is lawful: it has 1 to 8 classes, and at most 1,000,000 units, of which none is spent or held.
#[derive(Drop)]
pub struct Lawful {
    number: u32,
    classes: usize,
    account: Account,
    ghost some: { (1 ≤ classes) × (classes ≤ 8) },
    ghost fresh: { (account.spent ≡ 0) × (account.held ≡ 0) },
}

/// What a close answers: the steps taken and the units spent.
#[derive(Clone, Copy, Debug, PartialEq, Eq)]
pub struct Closed {
    pub steps: u16,
    pub units: u32,
}

/// What a station's account has.
#[derive(Clone, Copy, Debug, PartialEq, Eq)]
pub struct Balance {
    pub grant: u32,
    pub spent: u32,
    pub held: u32,
}

/// An open epoch, by its horizon and the units that it holds.
#[derive(Clone, Copy)]
struct Epoch {
    horizon: u16,
    units: u32,
}

/// A station over a plan, a tape and a finisher: idle, or with one epoch open.
#[derive(Drop)]
pub struct Station<P, T, F> {
    number: u32,
    plan: P,
    tape: T,
    finisher: F,
    account: Account,
    serial: u16,
    phase: Option<Epoch>,
    table: Table,
    ghost covered: { units_in phase ≤ account.held },
    ghost limited: { horizon_in phase ≤ 1024 },
}
