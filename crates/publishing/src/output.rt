//! Records added where there is room for them.

ghost use Rattle.std.specs.Prelude.{◌≡◌, ◌+◌, ◌≤◌, [], ◌∷◌, length};
ghost use Rattle.fault.specs.Told.{told};
ghost use Rattle.record.specs.Kinds.{bytes_of, ended, kind_of};
ghost use Rattle.record.specs.Seen.{entry_of};
ghost use Rattle.record.specs.Writes.{number_of_counts, put};
ghost use Rattle.publication.specs.Works.{refused_by};
ghost use Rattle.publishing.specs.Written.{Wrote};

use fault::Fault;
use publication::InWork;
use record::Record;

/// Adds a record.
pub(crate) fn put_record(work: InWork, out: &mut [u8], entry: &Record<'_>) -> InWork
    requires kind { (33 ≤ kind_of (entry_of entry.now)) × (kind_of (entry_of entry.now) ≤ 36) }
    requires counts { (1 ≤ number_of_counts (entry_of entry.now)) × (number_of_counts (entry_of entry.now) ≤ 8) }
    requires room { work.written + length (bytes_of (entry_of entry.now)) ≤ length out.old }
    ensures { Wrote (entry_of entry.now ∷ []) work out.old result out.new }
{
    work.take(out, entry).unwrap()
}

/// Adds the refused record of a fault that an event met.
pub(crate) fn put_refused(work: InWork, out: &mut [u8], fault: Fault, event: u64) -> InWork
    requires { work.written + 16 ≤ length out.old }
    ensures { Wrote (refused_by (told fault) event ∷ []) work out.old result out.new }
{
    work.refuse(out, fault, event).unwrap()
}

/// Adds the end record, and answers how many bytes the publication has.
pub(crate) fn end_publication(work: InWork, out: &mut [u8]) -> usize
    requires { work.written + 8 ≤ length out.old }
    ensures size { result ≡ work.written + 8 }
    ensures after { out.new ≡ put work.written (bytes_of (ended work.records)) out.old }
{
    work.end(out).unwrap().len()
}
