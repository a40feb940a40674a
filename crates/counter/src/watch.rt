//! A watch over a station: it takes the events, and tells what came of each.

use bounds::Bound;
use fault::{Cause, Fault, Layer};
use finisher::{CLASSES, Plain, Rising};
use plan::{Chosen, Plan};
use record::{Reading, Record, Row};
use station::{Balance, Closed, Hold, Setting, Station};
use std::io;
use tape::Tape;

/// How many events, steps and refusals there were.
#[derive(Clone, Copy, Default)]
struct Totals {
    events: u32,
    steps: u32,
    refusals: u32,
}

/// A station with the hold on its open epoch, and a second tape of the same cells, drawn in step with the station's.
pub struct Watch<T> {
    plan: Chosen,
    classes: usize,
    station: Station<Chosen, T, Rising<Plain>>,
    hold: Option<Hold>,
    tape: T,
    bound: Bound,
    totals: Totals,
}

impl<T: Tape + Drop> Watch<T> {
    /// A watch over a new station on the first of two tapes with the same cells; refused where the setting is.
    /// The set-up is its first event.
    pub(crate) fn new(setting: Setting, plan: Chosen, tape: T, same: T) -> Result<Self, Fault> {
        let classes = setting.classes as usize;
        let station = Station::new(setting.try_into()?, plan, tape, Rising::new(Plain));
        Ok(Watch {
            plan,
            classes,
            station,
            hold: None,
            tape: same,
            bound: Bound::new(),
            totals: Totals {
                events: 1,
                ..Totals::default()
            },
        })
    }

    /// Takes an event.
    pub(crate) fn take(&mut self, rt: &impl Print, event: &Reading<'_>) -> io::Result<()> {
        self.totals.events = self.totals.events.saturating_add(1);
        let number = self.totals.events;
        print!(rt; "{number:>3}  ")?;
        match event {
            Reading::Found(Record::Open { horizon }) => self.open(rt, *horizon),
            Reading::Found(Record::Step { row }) => self.step(rt, row),
            Reading::Found(Record::Close) => self.close(rt),
            Reading::Found(other) => {
                let kind = other.kind().number();
                self.refuse(rt, Cause::KindNotAllowed(kind).by(Layer::Record))
            }
            Reading::Faulty(fault) => self.refuse(rt, *fault),
            Reading::Nothing => println!(rt; "nothing"),
        }
    }

    fn refuse(&mut self, rt: &impl Print, fault: Fault) -> io::Result<()> {
        self.totals.refusals = self.totals.refusals.saturating_add(1);
        println!(rt; "{fault}")
    }

    fn open(&mut self, rt: &impl Print, horizon: u16) -> io::Result<()> {
        match self.station.open(horizon) {
            Err(fault) => self.refuse(rt, fault),
            Ok(hold) => {
                let serial = hold.serial();
                self.keep(hold);
                self.bound = Bound::new();
                let balance = self.station.balance();
                let held = balance.held;
                print!(rt; "open: epoch {serial}, horizon {horizon}, {held} units held")?;
                tell_balance(rt, balance)
            }
        }
    }

    /// Keeps the hold on the open epoch.
    fn keep(&mut self, hold: Hold) {
        if let Some(old) = self.hold.replace(hold) {
            let _ = old.write_off();
        }
    }

    fn step(&mut self, rt: &impl Print, row: &Row<'_>) -> io::Result<()> {
        match self.station.step(&row.first::<CLASSES>()) {
            Err(fault) => self.refuse(rt, fault),
            Ok(number) => {
                self.totals.steps = self.totals.steps.saturating_add(1);
                self.bound.draw(&mut self.tape, self.classes);
                self.tell_step(rt, number)
            }
        }
    }

    /// Tells the published counts, and how far they can lie from the true ones.
    fn tell_step(&self, rt: &impl Print, number: u16) -> io::Result<()> {
        print!(rt; "step {number}: published")?;
        for class in 0..self.classes {
            if let Ok(count) = self.station.read(class) {
                print!(rt; " {count}")?;
            }
        }
        let largest = self.bound.largest();
        let breadth = self.plan.breadth(number);
        let most = self.bound.at(&self.plan, number);
        println!(rt;
            ", within {most} of the true counts (largest cell {largest}, breadth {breadth})"
        )
    }

    fn close(&mut self, rt: &impl Print) -> io::Result<()> {
        let Some(hold) = self.hold.take() else {
            return self.refuse(rt, Cause::NoEpoch.by(Layer::Station));
        };
        match self.station.close(hold) {
            Ok(closed) => tell_closed(rt, closed, self.station.balance()),
            Err((fault, hold)) => {
                self.keep(hold);
                self.refuse(rt, fault)
            }
        }
    }

    /// Closes an epoch that is still open, and tells the totals.
    pub(crate) fn end(self, rt: &impl Print) -> io::Result<()> {
        let Watch {
            plan: _,
            classes: _,
            mut station,
            hold,
            tape: _,
            bound: _,
            totals,
        } = self;
        let closing = match hold {
            Some(hold) => end_epoch(rt, &mut station, hold),
            None => Ok(()),
        };
        closing?;
        let Totals {
            events,
            steps,
            refusals,
        } = totals;
        println!(rt; "{events} events, {steps} steps, {refusals} refusals")
    }
}

/// Closes the epoch that is open at the end.
fn end_epoch<T: Tape>(
    rt: &impl Print,
    station: &mut Station<Chosen, T, Rising<Plain>>,
    hold: Hold,
) -> io::Result<()> {
    let serial = hold.serial();
    match station.close(hold) {
        Ok(closed) => {
            print!(rt; "end  epoch {serial} is still open; ")?;
            tell_closed(rt, closed, station.balance())
        }
        Err((fault, hold)) => {
            let _ = hold.write_off();
            println!(rt; "end  {fault}")
        }
    }
}

fn tell_closed(rt: &impl Print, closed: Closed, balance: Balance) -> io::Result<()> {
    let Closed { steps, units } = closed;
    print!(rt; "close: {steps} steps, {units} units spent")?;
    tell_balance(rt, balance)
}

/// Ends a line with a balance.
fn tell_balance(rt: &impl Print, balance: Balance) -> io::Result<()> {
    let Balance { grant, spent, held } = balance;
    let free = grant.saturating_sub(spent).saturating_sub(held);
    println!(rt; "; grant {grant}, spent {spent}, held {held}, free {free}")
}
