//! A station with the hold on its open epoch: it answers event records.

ghost use Rattle.std.specs.Prelude.{◌≡◌, ◌<◌, ◌≤◌, true, length};
ghost use Rattle.std.specs.List.{flat_map};
ghost use Rattle.fault.specs.Told.{told};
ghost use Rattle.record.specs.Kinds.{closing, opening, row_in, stepping, tally_in};
ghost use Rattle.record.specs.Seen.{entry_of};
ghost use Rattle.runs.specs.Model.{is_open, made, units_of};
ghost use Rattle.station.specs.View.{lawful_of, view_of};
ghost use Rattle.publishing.specs.Whole.{misplaced as out-of-place, published_counts, reply_of, station_after};
ghost use Rattle.publishing.specs.Replies.{OnEpoch, OnEpoch-prop, replied_as};

use arrayvec::ArrayVec;
use fault::{Cause, Fault, Layer};
use finisher::{CLASSES, Finisher};
use plan::Plan;
use record::{Record, Row, Tally};
use station::{Hold, Lawful, Station};
use tape::Tape;

/// Published counts, class 0 first, each as its eight bytes.
pub(crate) type CountBytes = ArrayVec<[u8; 8], CLASSES>;

/// A station with the hold on its open epoch. The account holds the units of that epoch, and no others.
pub(crate) struct Keeper<P: Plan, T: Tape, F: Finisher> {
    station: Station<P, T, F>,
    hold: Option<Hold>,
    ghost on_epoch: { OnEpoch hold (view_of P.back T.cells F.says station) } by { OnEpoch-prop hold (view_of P.back T.cells F.says station) },
    ghost held: { (view_of P.back T.cells F.says station).held ≡ units_of (view_of P.back T.cells F.says station).phase },
}

impl<P: Plan, T: Tape, F: Finisher> Keeper<P, T, F> {
    /// A new station, with no epoch open.
    pub(crate) fn new(setting: Lawful, plan: P, tape: T, finisher: F) -> Self
        ensures { view_of P.back T.cells F.says result.station ≡ made (lawful_of setting) (P.back plan) (T.cells tape) (F.says finisher) }
    {
        Keeper {
            station: Station::new(setting, plan, tape, finisher),
            hold: None,
        }
    }

    /// Answers an event record by a record, or refuses it. A published record borrows its counts from `counts`, where
    /// they are stored.
    pub(crate) fn answer<'a>(
        &mut self,
        event: &Record<'_>,
        counts: &'a mut CountBytes,
    ) -> Result<Record<'a>, Fault>
        ensures reply { replied_as result ≡ reply_of (view_of P.back T.cells F.says self.old.station) (entry_of event.now) }
        ensures after { view_of P.back T.cells F.says self.new.station ≡ station_after (view_of P.back T.cells F.says self.old.station) (entry_of event.now) }
    {
        match (&self.hold, event) {
            (None, Record::Open { horizon }) => self.open(*horizon),
            (Some(hold), Record::Open { .. }) => {
                Err(Cause::AlreadyOpen(hold.serial()).by(Layer::Station))
            }
            (Some(hold), Record::Step { row }) => {
                let serial = hold.serial();
                self.step(serial, row, counts)
            }
            (_, Record::Close) => self.close(),
            (None, Record::Step { .. }) => Err(Cause::NoEpoch.by(Layer::Station)),
            _ => Err(misplaced(event)),
        }
    }

    /// Opens an epoch.
    fn open<'a>(&mut self, horizon: u16) -> Result<Record<'a>, Fault>
        ensures reply { replied_as result ≡ reply_of (view_of P.back T.cells F.says self.old.station) (opening horizon) }
        ensures after { view_of P.back T.cells F.says self.new.station ≡ station_after (view_of P.back T.cells F.says self.old.station) (opening horizon) }
    {
        let hold = self.station.open(horizon)?;
        let opened = Record::Opened {
            serial: u32::from(hold.serial()),
            horizon,
            held: self.station.balance().held,
        };
        // None is kept here, since an open is refused while an epoch is open.
        let_go(self.hold.replace(hold));
        Ok(opened)
    }

    /// Takes a row into the open epoch.
    fn step<'a>(
        &mut self,
        serial: u16,
        row: &Row<'_>,
        counts: &'a mut CountBytes,
    ) -> Result<Record<'a>, Fault>
        requires open { is_open (view_of P.back T.cells F.says self.old.station).phase ≡ true }
        requires newest { serial ≡ (view_of P.back T.cells F.says self.old.station).serial }
        ensures reply { replied_as result ≡ reply_of (view_of P.back T.cells F.says self.old.station) (stepping (row_in row.now.bytes.now)) }
        ensures after { view_of P.back T.cells F.says self.new.station ≡ station_after (view_of P.back T.cells F.says self.old.station) (stepping (row_in row.now.bytes.now)) }
    {
        // More counts than any station has classes.
        if row.len() > CLASSES {
            return Err(Cause::RowLength(row.len()).by(Layer::Station));
        }
        let step = self.station.step(&row.first::<CLASSES>())?;
        *counts = self.published(row.len());
        Ok(Record::Published {
            serial: u32::from(serial),
            step,
            tally: Tally::new(counts.as_slice().as_flattened()),
        })
    }

    /// The newest published counts, class 0 first, each as its eight bytes.
    fn published(&self, classes: usize) -> CountBytes
        requires all { classes ≡ (view_of P.back T.cells F.says self.now.station).setting.classes }
        requires stepped { 0 < (view_of P.back T.cells F.says self.now.station).steps }
        ensures { tally_in (flat_map (λ x. x) result.items) ≡ published_counts (view_of P.back T.cells F.says self.now.station) }
    {
        let mut counts = ArrayVec::new();
        for class in 0..classes {
            let count = self.station.read(class).unwrap();
            counts.push(count.to_le_bytes());
        }
        counts
    }

    /// Closes the open epoch.
    pub(crate) fn close<'a>(&mut self) -> Result<Record<'a>, Fault>
        ensures reply { replied_as result ≡ reply_of (view_of P.back T.cells F.says self.old.station) closing }
        ensures after { view_of P.back T.cells F.says self.new.station ≡ station_after (view_of P.back T.cells F.says self.old.station) closing }
    {
        let Some(hold) = self.hold.take() else {
            return Err(Cause::NoEpoch.by(Layer::Station));
        };
        let serial = hold.serial();
        let closed = self.station.close(hold).unwrap();
        Ok(Record::Closed {
            serial: u32::from(serial),
            steps: closed.steps,
            spent: closed.units,
        })
    }
}

impl<P: Plan + Drop, T: Tape + Drop, F: Finisher + Drop> Keeper<P, T, F> {
    /// Lets the station go, and gives up a hold that is left.
    pub(crate) fn end(self) {
        let Keeper { station: _, hold } = self;
        let_go(hold);
    }
}

/// Gives up a hold, where there is one.
fn let_go(hold: Option<Hold>) {
    if let Some(hold) = hold {
        let _ = hold.write_off();
    }
}

/// The refusal of a record whose kind may not stand here.
pub(crate) fn misplaced(event: &Record<'_>) -> Fault
    ensures { told result ≡ out-of-place (entry_of event.now) }
{
    Cause::KindNotAllowed(event.kind().number()).by(Layer::Record)
}
