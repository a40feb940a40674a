//! Record after record, a line each.

#![tactic(auto)]

ghost use Rattle.std.specs.Prelude.{◌≡◌, ◌+◌, ◌^◌, ◌<◌, IfOk};
ghost use Rattle.record.specs.Seen.{seen};
ghost use Rattle.listing.specs.Totals.{counted, goes_on, plus, totals};

use fault::Cause;
use record::{Reading, read_record};
use std::io;

/// What a listing came to: records read, faults met, and the bytes that both take up.
#[derive(Clone, Copy, Debug, Default, PartialEq, Eq)]
pub struct Summary {
    pub records: usize,
    pub faults: usize,
    pub bytes: usize,
}

impl Summary {
    /// Adds a reading that takes up so many bytes; false where it is the last.
    fn add(&mut self, reading: &Reading<'_>, size: usize) -> bool
        requires records { self.old.records + 1 < 2 ^ 64 }
        requires faults { self.old.faults + 1 < 2 ^ 64 }
        requires bytes { self.old.bytes + size < 2 ^ 64 }
        ensures value { result ≡ goes_on (seen reading.now) }
        ensures after { self.new ≡ plus self.old (counted (seen reading.now) size) }
    {
        match reading {
            Reading::Found(_) => {
                self.records += 1;
                self.bytes += size;
                true
            }
            Reading::Nothing => false,
            Reading::Faulty(fault) => {
                self.faults += 1;
                self.bytes += size;
                !matches!(fault.cause, Cause::CutShort(_))
            }
        }
    }
}

fn show(rt: &impl Print, at: usize, reading: &Reading<'_>) -> io::Result<()> {
    match reading {
        Reading::Found(record) => println!(rt; "at {at}: {record}"),
        Reading::Nothing => Ok(()),
        Reading::Faulty(fault) => println!(rt; "at {at}: {fault}"),
    }
}

/// Prints a line for each record of the bytes, a fault as one too, and answers what was met.
/// A record that is cut short is the last.
pub fn list(rt: &impl Print, bytes: &[u8]) -> io::Result<Summary>
    ensures { IfOk result (λ s. s ≡ totals bytes.now) }
{
    let mut summary = Summary::default();
    let mut rest = bytes;
    while !rest.is_empty() {
        let (reading, tail) = read_record(rest);
        show(rt, summary.bytes, &reading)?;
        if !summary.add(&reading, rest.len() - tail.len()) {
            break;
        }
        rest = tail;
    }
    Ok(summary)
}
