//! A publication in work takes records; with its end record it is ended, and takes none.

ghost use Rattle.std.specs.Prelude.{◌≡◌, ◌-◌, length};
ghost use Rattle.fault.specs.Told.{told};
ghost use Rattle.record.specs.Kinds.{ended};
ghost use Rattle.record.specs.Seen.{entry_of};
ghost use Rattle.publication.specs.Works.{added_as, added_with, capped, Counted, ended_as, HandedBack, output_added, output_with, refused_by, written_with};

use fault::{Cause, Fault, Layer};
use record::{Kind, Record};

// Numbers alone, by a rule of the project: the output is lent at each call and lies in no publication.
/// A publication that takes records: how many bytes of the output are written, and how many records they are. It cannot
/// be copied or let go: it is ended, or given up.
pub struct InWork {
    written: usize,
    records: u32,
}

/// A publication with its end record. It takes no record.
pub struct Ended {
    written: usize,
}

impl InWork {
    /// A publication without a record.
    pub fn new() -> InWork
        ensures { (result.written ≡ 0) × (result.records ≡ 0) }
    {
        InWork {
            written: 0,
            records: 0,
        }
    }

    /// How many bytes are left of an output of this size.
    pub fn left(&self, size: usize) -> usize
        ensures { result ≡ size - self.now.written }
    {
        size.saturating_sub(self.written)
    }

    /// Adds a record behind those that are written. Refused as by the record's writer, with nothing stored; the
    /// publication is handed back then.
    pub fn add(self, out: &mut [u8], entry: &Record<'_>) -> Result<InWork, (Fault, InWork)>
        ensures answer { added_as result ≡ written_with self.written (entry_of entry.now) (length out.old) }
        ensures count { Counted self result }
        ensures after { out.new ≡ output_with self.written (entry_of entry.now) out.old }
    {
        let at = self.written.min(out.len());
        match entry.write(&mut out[at..]) {
            Ok(size) => {
                let (_, records) = self.numbers();
                Ok(InWork {
                    written: at + size,
                    records: records.saturating_add(1),
                })
            }
            Err(fault) => Err((fault, self)),
        }
    }

    /// Takes a record that answers an event: opened, published, closed or refused. Another kind is refused, with nothing
    /// stored and the publication handed back; these are added as by `add`.
    pub fn take(self, out: &mut [u8], entry: &Record<'_>) -> Result<InWork, (Fault, InWork)>
        ensures answer { added_as result ≡ added_with self.written (entry_of entry.now) (length out.old) }
        ensures count { Counted self result }
        ensures after { out.new ≡ output_added self.written (entry_of entry.now) out.old }
    {
        match entry.kind() {
            Kind::Opened | Kind::Published | Kind::Closed | Kind::Refused => self.add(out, entry),
            kind => Err((Cause::KindNotAllowed(kind.number()).by(Layer::Record), self)),
        }
    }

    /// Adds the refused record of a fault that an event record met. Places and event numbers that 32 bits cannot hold are
    /// written as 4,294,967,295. Refused as `add` is.
    pub fn refuse(self, out: &mut [u8], fault: Fault, event: u64) -> Result<InWork, (Fault, InWork)>
        ensures answer { added_as result ≡ written_with self.written (refused_by (told fault) event) (length out.old) }
        ensures count { Counted self result }
        ensures after { out.new ≡ output_with self.written (refused_by (told fault) event) out.old }
    {
        let entry = refused_record(fault, event);
        self.add(out, &entry)
    }

    /// Adds the end record, which says how many records are before it. Refused as `add` is.
    pub fn end(self, out: &mut [u8]) -> Result<Ended, (Fault, InWork)>
        ensures answer { ended_as result ≡ written_with self.written (ended self.records) (length out.old) }
        ensures handed { HandedBack self result }
        ensures after { out.new ≡ output_with self.written (ended self.records) out.old }
    {
        let entry = end_record(self.records);
        let whole = self.add(out, &entry)?;
        Ok(Ended {
            written: whole.give_up(),
        })
    }

    /// Gives the publication up without an end record, and answers how many bytes are written.
    pub fn give_up(self) -> usize
        ensures { result ≡ self.written }
    {
        let (written, _) = self.numbers();
        written
    }

    /// Bytes and records.
    fn numbers(self) -> (usize, u32)
        ensures { result ≡ (self.written, self.records) }
    {
        let InWork { written, records } = self;
        (written, records)
    }
}

impl Ended {
    /// How many bytes the publication has.
    pub fn len(self) -> usize
        ensures { result ≡ self.written }
    {
        let Ended { written } = self;
        written
    }
}

fn end_record<'a>(records: u32) -> Record<'a>
    ensures { entry_of result ≡ ended records }
{
    Record::End { records }
}

fn refused_record<'a>(fault: Fault, event: u64) -> Record<'a>
    ensures { entry_of result ≡ refused_by (told fault) event }
{
    Record::Refused {
        number: fault.cause.number(),
        layer: fault.layer.number(),
        place: cut(fault.cause.place()),
        event: cut(event),
    }
}

/// A number as a field of 32 bits holds it.
fn cut(number: u64) -> u32
    ensures { result ≡ capped number }
{
    u32::try_from(number).unwrap_or(u32::MAX)
}
