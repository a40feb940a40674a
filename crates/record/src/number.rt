//! The numbers of a record, the lowest byte first.

ghost use Rattle.std.specs.Prelude.{◌≡◌, ℕ, ◌+◌, ◌*◌, ◌/◌, ◌<◌, ◌≤◌, length, take, drop, map, List, ◌∷◌, ℤ};
ghost use Rattle.std.proofs.Common.{to_z, of_z, lit<};
ghost use Rattle.std.specs.Int.{w64};
ghost use Rattle.record.specs.Little.{field, little, spread};
ghost use Rattle.record.specs.Kinds.{row_in, tally_in};
ghost use Rattle.record.specs.Writes.{put};
ghost use Rattle.record.specs.Counted.{Bytes, first-of-row, first-of-tally, length-row, length-tally, row-bytes, tally-bytes};

/// A number as it stands in a record, in bytes of its own.
pub trait Number: Copy {
    ghost SIZE: { ℕ };

    // the number that bits make, and its bits
    ghost of_bits: { ℕ → Self };

    ghost bits: { Self → ℕ };

    /// How many bytes it takes up.
    const SIZE: usize;

    /// The number in the bytes from a place on.
    fn read(bytes: &[u8], at: usize) -> Self
        requires { at + SIZE ≤ length bytes.now }
        ensures { result ≡ of_bits (field at SIZE bytes.now) };

    /// Stores the number in the bytes from a place on.
    fn store(self, out: &mut [u8], at: usize)
        requires { at + SIZE ≤ length out.old }
        ensures { out.new ≡ put at (little SIZE (bits self)) out.old };

    ghost takes_bytes: { 0 < SIZE };
}

/// A number of which a record has several, one after the other: the counts of a row or a tally.
pub trait Count: Number {
    // the counts that stand in some bytes, and counts as bytes
    ghost counts_in: { List ℕ → List Self };

    ghost written: { List Self → List ℕ };

    ghost length_counts: { (bs : List ℕ) → length (counts_in bs) ≡ length bs / Self.SIZE };

    ghost first_count: { (bs : List ℕ) → 0 < length (counts_in bs) → counts_in bs ≡ Self.of_bits (field 0 Self.SIZE bs) ∷ counts_in (drop Self.SIZE bs) };

    ghost whole_bytes: { (bs : List ℕ) → Bytes bs → written (counts_in bs) ≡ take (length bs / Self.SIZE * Self.SIZE) bs };
}

impl Number for u16 {
    ghost SIZE = { 2 };

    ghost of_bits = { λ n. n };

    ghost bits = { λ n. n };

    ghost takes_bytes = { lit< tt };

    const SIZE: usize = 2;

    fn read(bytes: &[u8], at: usize) -> u16 {
        u16::from_le_bytes(*bytes[at..].first_chunk().unwrap())
    }

    fn store(self, out: &mut [u8], at: usize) {
        put_bytes(out, at, &self.to_le_bytes());
    }
}

impl Number for u32 {
    ghost SIZE = { 4 };

    ghost of_bits = { λ n. n };

    ghost bits = { λ n. n };

    ghost takes_bytes = { lit< tt };

    const SIZE: usize = 4;

    fn read(bytes: &[u8], at: usize) -> u32 {
        u32::from_le_bytes(*bytes[at..].first_chunk().unwrap())
    }

    fn store(self, out: &mut [u8], at: usize) {
        put_bytes(out, at, &self.to_le_bytes());
    }
}

impl Number for i64 {
    ghost SIZE = { 8 };

    ghost of_bits = { to_z w64 };

    ghost bits = { of_z w64 };

    ghost takes_bytes = { lit< tt };

    const SIZE: usize = 8;

    fn read(bytes: &[u8], at: usize) -> i64 {
        i64::from_le_bytes(*bytes[at..].first_chunk().unwrap())
    }

    fn store(self, out: &mut [u8], at: usize) {
        put_bytes(out, at, &self.to_le_bytes());
    }
}

impl Count for u16 {
    ghost counts_in = { row_in };

    ghost written = { spread 2 };

    ghost length_counts = { length-row };

    ghost first_count = { first-of-row };

    ghost whole_bytes = { row-bytes };
}

impl Count for i64 {
    ghost counts_in = { tally_in };

    ghost written = { λ counts. spread 8 (map (of_z w64) counts) };

    ghost length_counts = { length-tally };

    ghost first_count = { first-of-tally };

    ghost whole_bytes = { tally-bytes };
}

/// Stores bytes from a place on.
pub(crate) fn put_bytes(out: &mut [u8], at: usize, bytes: &[u8])
    requires { at + length bytes.now ≤ length out.old }
    ensures { out.new ≡ put at bytes.now out.old }
{
    out[at..at + bytes.len()].copy_from_slice(bytes);
}
