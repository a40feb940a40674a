//! The making of a station, and its five calls.

ghost use Rattle.std.specs.Prelude.{◌≡◌, false, ◌&&◌, is_ok, Some, MatchResult, ◌==◌};
ghost use Rattle.fault.specs.Told.{told};
ghost use Rattle.runs.specs.Model.{answer, next, refusal, made, after_row, opens, steps as steps_by, closes, reads, balances};
ghost use Rattle.runs.specs.Law.{EachRun, PairedRuns};
ghost use Rattle.station.specs.Examples.{WorkedExamples};
ghost use Rattle.station.specs.Answers.{opened_as, stepped_as, closed_as, HandedBack, read_as, balance_as, MayOpen, MayStep};
ghost use Rattle.station.specs.View.{lawful_of, making_of, view_of};

use crate::hold::Hold;
use crate::row::first_over;
use crate::table::Table;
use crate::{Balance, Closed, Epoch, Lawful, Station};
use fault::{Cause, Fault, Layer};
use finisher::Finisher;
use plan::{HORIZON, Plan};
use tape::Tape;

impl<P: Plan, T: Tape, F: Finisher> Station<P, T, F> {
    /// A station that is idle. What holds of its every run from here on, and of every two runs side by side, is said here.
    pub fn new(setting: Lawful, plan: P, tape: T, finisher: F) -> Self
        ensures each_run { EachRun (making_of (lawful_of setting) (P.back plan) (T.cells tape) (F.says finisher)) }
        ensures paired_runs { PairedRuns }
        ensures examples { WorkedExamples }
        ensures made { view_of P.back T.cells F.says result ≡ made (lawful_of setting) (P.back plan) (T.cells tape) (F.says finisher) }
    {
        let Lawful {
            number,
            classes,
            account,
        } = setting;
        Station {
            number,
            plan,
            tape,
            finisher,
            account,
            serial: 0,
            phase: None,
            table: Table::new(classes),
        }
    }

    /// Opens an epoch of `horizon` steps, and answers the hold on it.
    pub fn open(&mut self, horizon: u16) -> Result<Hold, Fault>
        ensures answer { opened_as result ≡ answer (view_of P.back T.cells F.says self.old) (opens horizon) }
        ensures after { view_of P.back T.cells F.says self.new ≡ next (view_of P.back T.cells F.says self.old) (opens horizon) }
        ensures refused { is_ok result ≡ false → self.new ≡ self.old }
    {
        self.look_open(horizon)?;
        let units = u32::from(self.plan.depth(horizon));
        self.account.hold(units)?;
        self.finisher.begin();
        self.serial += 1;
        self.table.clear();
        self.phase = Some(Epoch { horizon, units });
        Ok(Hold::new(self.number, self.serial))
    }

    /// Takes a row: each class its count and a cell. It answers the step's number.
    pub fn step(&mut self, row: &[u16]) -> Result<u16, Fault>
        ensures answer { stepped_as result ≡ answer (view_of P.back T.cells F.says self.old) (steps_by row.now) }
        ensures after { view_of P.back T.cells F.says self.new ≡ next (view_of P.back T.cells F.says self.old) (steps_by row.now) }
        ensures refused { is_ok result ≡ false → self.new ≡ self.old }
    {
        self.look_step(row)?;
        self.take_row(row);
        Ok(self.table.steps())
    }

    /// Closes the epoch that the hold is on, and answers its steps and the units that they spend; another hold is
    /// handed back.
    pub fn close(&mut self, hold: Hold) -> Result<Closed, (Fault, Hold)>
        ensures answer { closed_as result ≡ answer (view_of P.back T.cells F.says self.old) (closes hold.station hold.serial) }
        ensures after { view_of P.back T.cells F.says self.new ≡ next (view_of P.back T.cells F.says self.old) (closes hold.station hold.serial) }
        ensures refused { is_ok result ≡ false → self.new ≡ self.old }
        ensures handed { HandedBack hold result }
    {
        match (self.phase, self.names(&hold)) {
            (Some(Epoch { units, .. }), true) => {
                let _ = hold.write_off();
                let steps = self.table.steps();
                let spent = units.min(u32::from(self.plan.depth(steps)));
                self.account.settle(units, spent);
                self.phase = None;
                Ok(Closed {
                    steps,
                    units: spent,
                })
            }
            _ => Err((Cause::WrongHold(hold.serial()).by(Layer::Station), hold)),
        }
    }

    /// Whether a hold is on the newest epoch of this station.
    fn names(&self, hold: &Hold) -> bool
        ensures { result ≡ (hold.now.station == self.now.number && hold.now.serial == self.now.serial) }
    {
        hold.station() == self.number && hold.serial() == self.serial
    }

    /// Takes a row that can be taken.
    fn take_row(&mut self, row: &[u16])
        requires { MayStep (view_of P.back T.cells F.says self.old) row.now }
        ensures { view_of P.back T.cells F.says self.new ≡ after_row (view_of P.back T.cells F.says self.old) row.now }
    {
        let back = usize::from(self.plan.back_step(self.table.steps() + 1));
        self.table
            .take_row(back, row, &mut self.tape, &mut self.finisher);
    }

    /// Whether an epoch of `horizon` steps can be opened, but for its units.
    fn look_open(&self, horizon: u16) -> Result<(), Fault>
        ensures { MatchResult result (λ _. MayOpen (view_of P.back T.cells F.says self.now) horizon) (λ f. refusal (view_of P.back T.cells F.says self.now) (opens horizon) ≡ Some (told f)) }
    {
        let None = self.phase else {
            return Err(Cause::AlreadyOpen(self.serial).by(Layer::Station));
        };
        if horizon < 1 || horizon > HORIZON {
            return Err(Cause::Horizon(horizon).by(Layer::Station));
        }
        if self.serial == u16::MAX {
            return Err(Cause::SerialsUsedUp.by(Layer::Station));
        }
        Ok(())
    }

    /// Whether a row can be taken.
    fn look_step(&self, row: &[u16]) -> Result<(), Fault>
        ensures { MatchResult result (λ _. MayStep (view_of P.back T.cells F.says self.now) row.now) (λ f. refusal (view_of P.back T.cells F.says self.now) (steps_by row.now) ≡ Some (told f)) }
    {
        let Some(Epoch { horizon, .. }) = self.phase else {
            return Err(Cause::NoEpoch.by(Layer::Station));
        };
        let classes = self.table.classes();
        if row.len() != classes {
            return Err(Cause::RowLength(row.len()).by(Layer::Station));
        }
        if let Some(class) = first_over(row) {
            return Err(Cause::CountTooLarge(class).by(Layer::Station));
        }
        if self.table.steps() >= horizon {
            return Err(Cause::EpochFull(horizon).by(Layer::Station));
        }
        let left = self.tape.left();
        if left < classes {
            return Err(Cause::TapeShort(left).by(Layer::Tape));
        }
        Ok(())
    }

    /// The newest published count of a class, in the newest epoch.
    pub fn read(&self, class: usize) -> Result<i64, Fault>
        ensures { read_as result ≡ answer (view_of P.back T.cells F.says self.now) (reads class) }
    {
        if class >= self.table.classes() {
            Err(Cause::NoSuchClass(class).by(Layer::Station))
        } else if self.table.steps() == 0 {
            Err(Cause::NothingPublished.by(Layer::Station))
        } else {
            Ok(self.table.published(class))
        }
    }

    /// The units granted, spent and held.
    pub fn balance(&self) -> Balance
        ensures { balance_as result ≡ answer (view_of P.back T.cells F.says self.now) balances }
    {
        Balance {
            grant: self.account.grant(),
            spent: self.account.spent(),
            held: self.account.held(),
        }
    }
}
