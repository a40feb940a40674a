//! The events of a publication, answered one after the other.

ghost use Rattle.std.specs.Prelude.{◌≡◌, ◌+◌, ◌-◌, ◌^◌, ◌<◌, ◌≤◌, length};
ghost use Rattle.record.specs.Seen.{seen};
ghost use Rattle.station.specs.View.{view_of};
ghost use Rattle.publishing.specs.Whole.{bytes_in, closing_of, given, next_in, records_from, rest_in, station_by};
ghost use Rattle.publishing.specs.Written.{Wrote};

use crate::events::{LEAST_ROOM, no_room};
use crate::keeper::{CountBytes, Keeper};
use crate::output::{put_record, put_refused};
use finisher::Finisher;
use plan::Plan;
use publication::{InWork, Stage, read_event};
use record::Reading;
use tape::Tape;

impl<P: Plan, T: Tape, F: Finisher> Keeper<P, T, F> {
    /// Answers the event records one after the other, the first of which is the second event, and closes an epoch that
    /// is open at their end.
    pub(crate) fn answer_rest(&mut self, mut work: InWork, out: &mut [u8], events: &[u8]) -> InWork
        requires room { work.written + 120 ≤ length out.old }
        requires few { length events.now + 2 < 2 ^ 64 }
        ensures wrote { Wrote (records_from (length events.now) (length out.old - work.written) 2 (view_of P.back T.cells F.says self.old.station) events.now) work out.old result out.new }
        ensures room { result.written + 8 ≤ length out.new }
    {
        let mut rest = events;
        // Each has a byte at least, so there are no more of them than bytes.
        for event in 2..events.len() as u64 + 2 {
            if rest.is_empty() {
                break;
            }
            let (next, tail) = self.turn(work, out, rest, event);
            work = next;
            rest = tail;
        }
        self.finish(work, out)
    }

    /// Answers the next event record, and answers the event bytes after it, of which a stop leaves none. Stops are too
    /// little room in the output and a record that is cut short.
    fn turn<'a>(
        &mut self,
        work: InWork,
        out: &mut [u8],
        events: &'a [u8],
        event: u64,
    ) -> (InWork, &'a [u8])
        requires room { work.written + length (bytes_in (given event (view_of P.back T.cells F.says self.old.station) (next_in (length out.old - work.written) events.now))) ≤ length out.old }
        ensures wrote { Wrote (given event (view_of P.back T.cells F.says self.old.station) (next_in (length out.old - work.written) events.now)) work out.old result.0 out.new }
        ensures after { view_of P.back T.cells F.says self.new.station ≡ station_by (view_of P.back T.cells F.says self.old.station) (next_in (length out.old - work.written) events.now) }
        ensures rest { result.1.now ≡ rest_in (length out.old - work.written) events.now }
    {
        let left = work.left(out.len());
        if left < LEAST_ROOM {
            return (put_refused(work, out, no_room(left), event), &[]);
        }
        let (reading, rest) = read_event(events, Stage::Later);
        let work = self.answer_reading(work, out, &reading, event);
        if rest.len() == events.len() {
            (work, &[])
        } else {
            (work, rest)
        }
    }

    /// Answers what was read of an event.
    fn answer_reading(
        &mut self,
        work: InWork,
        out: &mut [u8],
        reading: &Reading<'_>,
        event: u64,
    ) -> InWork
        requires room { work.written + length (bytes_in (given event (view_of P.back T.cells F.says self.old.station) (seen reading.now))) ≤ length out.old }
        ensures wrote { Wrote (given event (view_of P.back T.cells F.says self.old.station) (seen reading.now)) work out.old result out.new }
        ensures after { view_of P.back T.cells F.says self.new.station ≡ station_by (view_of P.back T.cells F.says self.old.station) (seen reading.now) }
    {
        match reading {
            Reading::Found(record) => {
                let mut counts = CountBytes::new();
                match self.answer(record, &mut counts) {
                    Ok(reply) => put_record(work, out, &reply),
                    Err(fault) => put_refused(work, out, fault, event),
                }
            }
            Reading::Faulty(fault) => put_refused(work, out, *fault, event),
            Reading::Nothing => work,
        }
    }

    /// Closes an epoch that is still open.
    fn finish(&mut self, work: InWork, out: &mut [u8]) -> InWork
        requires room { work.written + 14 ≤ length out.old }
        ensures { Wrote (closing_of (view_of P.back T.cells F.says self.old.station)) work out.old result out.new }
    {
        match self.close() {
            Ok(closed) => put_record(work, out, &closed),
            Err(_) => work,
        }
    }
}
