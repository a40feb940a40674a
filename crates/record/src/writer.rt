//! Writing: a record at the start of some bytes.

ghost use Rattle.std.specs.Prelude.{◌≡◌, ◌+◌, ◌<◌, ◌≤◌, ◌++◌, ◌&&◌, false, nat_le, length, take, IfOk, MatchResult};
ghost use Rattle.fault.specs.Told.{answered};
ghost use Rattle.record.specs.Little.{little};
ghost use Rattle.record.specs.Kinds.{closed, closing, ended, opened, opening, published, refused, row_in, set_up, stepping, tally_in};
ghost use Rattle.record.specs.Numbered.{number_of_kind};
ghost use Rattle.record.specs.Seen.{entry_of};
ghost use Rattle.record.specs.Writes.{write_of, output_after, put, ReadsBack, Stored};

use crate::kinds::{Kind, Record};
use crate::number::{Count, Number, put_bytes};
use fault::{Cause, Fault, Layer};

impl Record<'_> {
    /// Stores the record at the start of the output and answers how many bytes it has.
    /// Other counts than 1 to 8, then too little room, are refused, and nothing is stored.
    pub fn write(&self, out: &mut [u8]) -> Result<usize, Fault>
        ensures value { answered result ≡ write_of (entry_of self.now) (length out.old) }
        ensures after { out.new ≡ output_after (entry_of self.now) out.old }
        ensures reads_back { IfOk result (λ n. ReadsBack (take n out.new) (entry_of self.now)) }
    {
        match self {
            Record::SetUp {
                station,
                classes,
                plan,
                grant,
            } => put_set_up(out, *station, *classes, *plan, *grant),
            Record::Open { horizon } => put_open(out, *horizon),
            Record::Step { row } => put_step(out, row.bytes),
            Record::Close => put_close(out),
            Record::Opened {
                serial,
                horizon,
                held,
            } => put_epoch(out, Kind::Opened, *serial, *horizon, *held),
            Record::Published {
                serial,
                step,
                tally,
            } => put_published(out, *serial, *step, tally.bytes),
            Record::Closed {
                serial,
                steps,
                spent,
            } => put_epoch(out, Kind::Closed, *serial, *steps, *spent),
            Record::Refused {
                number,
                layer,
                place,
                event,
            } => put_refused(out, *number, *layer, *place, *event),
            Record::End { records } => put_end(out, *records),
        }
    }
}

/// The bytes of whole counts, without the bytes over. Other counts than 1 to 8 are refused.
fn whole<N: Count>(bytes: &[u8]) -> Result<&[u8], Fault>
    ensures { let counts = N.counts_in bytes.now in MatchResult result (λ body. (body.now ≡ N.written counts) × (1 ≤ length counts) × (length counts ≤ 8)) (λ fault. (fault ≡ record { cause = Cause.LengthUnfit (length counts); layer = Layer.Record }) × ((nat_le 1 (length counts) && nat_le (length counts) 8) ≡ false)) }
{
    let counts = bytes.len() / N::SIZE;
    if counts < 1 || counts > 8 {
        return Err(Cause::LengthUnfit(counts).by(Layer::Record));
    }
    Ok(&bytes[0..counts * N::SIZE])
}

/// Stores the header of a record with a body of this length, and answers the record's length.
/// Too little room for the record is refused.
fn start(out: &mut [u8], kind: Kind, body: u16) -> Result<usize, Fault>
    ensures { MatchResult result (λ size. (size ≡ 4 + body) × (4 + body ≤ length out.old) × (out.new ≡ put 0 (little 2 body ++ little 2 (number_of_kind kind)) out.old)) (λ fault. (fault ≡ record { cause = Cause.NoRoom (length out.old); layer = Layer.Publication }) × (length out.old < 4 + body) × (out.new ≡ out.old)) }
{
    let size = 4 + body as usize;
    if size > out.len() {
        return Err(Cause::NoRoom(out.len()).by(Layer::Publication));
    }
    body.store(out, 0);
    kind.number().store(out, 2);
    Ok(size)
}

fn put_set_up(
    out: &mut [u8],
    station: u32,
    classes: u16,
    plan: u16,
    grant: u32,
) -> Result<usize, Fault>
    ensures { Stored (set_up station classes plan grant) out.old (answered result) out.new }
{
    let size = start(out, Kind::SetUp, 12)?;
    station.store(out, 4);
    classes.store(out, 8);
    plan.store(out, 10);
    grant.store(out, 12);
    Ok(size)
}

fn put_open(out: &mut [u8], horizon: u16) -> Result<usize, Fault>
    ensures { Stored (opening horizon) out.old (answered result) out.new }
{
    let size = start(out, Kind::Open, 2)?;
    horizon.store(out, 4);
    Ok(size)
}

fn put_step(out: &mut [u8], counts: &[u8]) -> Result<usize, Fault>
    ensures { Stored (stepping (row_in counts.now)) out.old (answered result) out.new }
{
    let body = whole::<u16>(counts)?;
    let size = start(out, Kind::Step, body.len() as u16)?;
    put_bytes(out, 4, body);
    Ok(size)
}

fn put_close(out: &mut [u8]) -> Result<usize, Fault>
    ensures { Stored closing out.old (answered result) out.new }
{
    start(out, Kind::Close, 0)
}

/// What opened and closed records share: serial, steps, units.
fn put_epoch(
    out: &mut [u8],
    kind: Kind,
    serial: u32,
    steps: u16,
    units: u32,
) -> Result<usize, Fault>
    ensures opened { kind ≡ Kind.Opened → Stored (opened serial steps units) out.old (answered result) out.new }
    ensures closed { kind ≡ Kind.Closed → Stored (closed serial steps units) out.old (answered result) out.new }
{
    let size = start(out, kind, 10)?;
    serial.store(out, 4);
    steps.store(out, 8);
    units.store(out, 10);
    Ok(size)
}

fn put_published(out: &mut [u8], serial: u32, step: u16, counts: &[u8]) -> Result<usize, Fault>
    ensures { Stored (published serial step (tally_in counts.now)) out.old (answered result) out.new }
{
    let body = whole::<i64>(counts)?;
    let size = start(out, Kind::Published, 6 + body.len() as u16)?;
    serial.store(out, 4);
    step.store(out, 8);
    put_bytes(out, 10, body);
    Ok(size)
}

fn put_refused(
    out: &mut [u8],
    number: u16,
    layer: u16,
    place: u32,
    event: u32,
) -> Result<usize, Fault>
    ensures { Stored (refused number layer place event) out.old (answered result) out.new }
{
    let size = start(out, Kind::Refused, 12)?;
    number.store(out, 4);
    layer.store(out, 6);
    place.store(out, 8);
    event.store(out, 12);
    Ok(size)
}

fn put_end(out: &mut [u8], records: u32) -> Result<usize, Fault>
    ensures { Stored (ended records) out.old (answered result) out.new }
{
    let size = start(out, Kind::End, 4)?;
    records.store(out, 4);
    Ok(size)
}
