//! Reading: the first record of some bytes, and the bytes that follow it.

ghost use Rattle.std.specs.Prelude.{◌≡◌, ◌<◌, ◌==◌, ◌++◌, length as size, cond};
ghost use Rattle.record.specs.Little.{field};
ghost use Rattle.record.specs.Kinds.{Entry, bytes_of};
ghost use Rattle.record.specs.Seen.{Borrows, Unpacked, reading_of, seen};
ghost use Rattle.record.specs.Reads.{answer_to, body_in, has_few_counts, found, refusal, rest_after};

use crate::counts::{Row, Tally};
use crate::kinds::{Kind, Record};
use crate::number::{Count, Number};
use fault::{Cause, Fault, Layer};

// One enum, in no Option or Result, is what the reader answers by a rule of the project.
/// What stands at the start of some bytes.
#[derive(Clone, Copy)]
pub enum Reading<'a> {
    Found(Record<'a>),
    Nothing,
    Faulty(Fault),
}

impl<'a> From<Result<Record<'a>, Fault>> for Reading<'a> {
    ghost from_gives = { λ unpacked reading. reading ≡ reading_of unpacked };

    fn from(unpacked: Result<Record<'a>, Fault>) -> Reading<'a> {
        match unpacked {
            Ok(record) => Reading::Found(record),
            Err(fault) => Reading::Faulty(fault),
        }
    }
}

/// The first record of the bytes, and the bytes that follow it.
/// A record that is cut short leaves the bytes as they are.
pub fn read_record(bytes: &[u8]) -> (Reading<'_>, &[u8])
    ensures value { seen result.0 ≡ answer_to bytes.now }
    ensures rest { result.1.now ≡ rest_after bytes.now }
    ensures borrowed { Borrows result.0 (body_in bytes.now) }
    ensures same_bytes { (e : Entry) → seen result.0 ≡ found e → bytes_of e ++ result.1.now ≡ bytes.now }
{
    match bytes {
        [] => (Reading::Nothing, bytes),
        [length_low, length_high, kind_low, kind_high, tail @ ..] => {
            let length = u16::from_le_bytes([*length_low, *length_high]) as usize;
            if length > tail.len() {
                return (cut_short(bytes), bytes);
            }
            let kind = u16::from_le_bytes([*kind_low, *kind_high]);
            let reading = Reading::from(unpack(kind, &tail[0..length]));
            (reading, &tail[length..])
        }
        _ => (cut_short(bytes), bytes),
    }
}

fn cut_short<'a>(bytes: &[u8]) -> Reading<'a>
    ensures value { seen result ≡ refusal 16 (size bytes.now) }
    ensures borrowed { Borrows result (body_in bytes.now) }
{
    Reading::Faulty(Cause::CutShort(bytes.len()).by(Layer::Record))
}

/// The record of the kind with this number, with this body.
fn unpack(kind: u16, body: &[u8]) -> Result<Record<'_>, Fault>
    ensures { Unpacked kind body.now result }
{
    match Kind::try_from(kind)? {
        Kind::SetUp => unpack_set_up(body),
        Kind::Open => unpack_open(body),
        Kind::Step => unpack_step(body),
        Kind::Close => unpack_close(body),
        Kind::Opened => {
            let (serial, horizon, held) = unpack_epoch(body)?;
            Ok(Record::Opened {
                serial,
                horizon,
                held,
            })
        }
        Kind::Published => unpack_published(body),
        Kind::Closed => {
            let (serial, steps, spent) = unpack_epoch(body)?;
            Ok(Record::Closed {
                serial,
                steps,
                spent,
            })
        }
        Kind::Refused => unpack_refused(body),
        Kind::End => unpack_end(body),
    }
}

/// The refusal of a body whose length does not suit the kind.
fn unfit(body: &[u8]) -> Fault
    ensures { result ≡ record { cause = Cause.LengthUnfit (size body.now); layer = Layer.Record } }
{
    Cause::LengthUnfit(body.len()).by(Layer::Record)
}

fn unpack_set_up(body: &[u8]) -> Result<Record<'_>, Fault>
    ensures { Unpacked 1 body.now result }
{
    if body.len() != 12 {
        return Err(unfit(body));
    }
    let station = u32::read(body, 0);
    let classes = u16::read(body, 4);
    let plan = u16::read(body, 6);
    let grant = u32::read(body, 8);
    Ok(Record::SetUp {
        station,
        classes,
        plan,
        grant,
    })
}

fn unpack_open(body: &[u8]) -> Result<Record<'_>, Fault>
    ensures { Unpacked 2 body.now result }
{
    if body.len() != 2 {
        return Err(unfit(body));
    }
    let horizon = u16::read(body, 0);
    Ok(Record::Open { horizon })
}

fn unpack_step(body: &[u8]) -> Result<Record<'_>, Fault>
    ensures { Unpacked 3 body.now result }
{
    if !few_counts::<u16>(body.len()) {
        return Err(unfit(body));
    }
    let row = Row::new(body);
    Ok(Record::Step { row })
}

fn unpack_close(body: &[u8]) -> Result<Record<'_>, Fault>
    ensures { Unpacked 4 body.now result }
{
    if !body.is_empty() {
        return Err(unfit(body));
    }
    Ok(Record::Close)
}

/// What opened and closed records share: serial, steps, units.
fn unpack_epoch(body: &[u8]) -> Result<(u32, u16, u32), Fault>
    ensures { result ≡ cond (size body.now == 10) (Ok (field 0 4 body.now, field 4 2 body.now, field 6 4 body.now)) (Err (record { cause = Cause.LengthUnfit (size body.now); layer = Layer.Record })) }
{
    if body.len() != 10 {
        return Err(unfit(body));
    }
    let serial = u32::read(body, 0);
    let steps = u16::read(body, 4);
    let units = u32::read(body, 6);
    Ok((serial, steps, units))
}

fn unpack_published(body: &[u8]) -> Result<Record<'_>, Fault>
    ensures { Unpacked 34 body.now result }
{
    if body.len() < 6 || !few_counts::<i64>(body.len() - 6) {
        return Err(unfit(body));
    }
    let serial = u32::read(body, 0);
    let step = u16::read(body, 4);
    let tally = Tally::new(&body[6..]);
    Ok(Record::Published {
        serial,
        step,
        tally,
    })
}

fn unpack_refused(body: &[u8]) -> Result<Record<'_>, Fault>
    ensures { Unpacked 36 body.now result }
{
    if body.len() != 12 {
        return Err(unfit(body));
    }
    let number = u16::read(body, 0);
    let layer = u16::read(body, 2);
    let place = u32::read(body, 4);
    let event = u32::read(body, 8);
    Ok(Record::Refused {
        number,
        layer,
        place,
        event,
    })
}

fn unpack_end(body: &[u8]) -> Result<Record<'_>, Fault>
    ensures { Unpacked 37 body.now result }
{
    if body.len() != 4 {
        return Err(unfit(body));
    }
    let records = u32::read(body, 0);
    Ok(Record::End { records })
}

/// Whether a body part of this length is one to eight counts.
fn few_counts<N: Count>(length: usize) -> bool
    ensures { result ≡ has_few_counts N.SIZE length }
{
    length % N::SIZE == 0 && 1 <= length / N::SIZE && length / N::SIZE <= 8
}
