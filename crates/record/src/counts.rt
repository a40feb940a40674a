//! The counts of a record, as they stand in its body.

ghost use Rattle.std.specs.Prelude.{◌≡◌, ◌≤◌, length, take};
ghost use Rattle.std.specs.Iterator.{YieldsFirst, item_count};
ghost use Rattle.std.specs.List.{slice_get};

use crate::number::{Count, Number};
use arrayvec::ArrayVec;
use std::fmt;
use std::marker::PhantomData;

/// Counts, one after the other, as they stand in some bytes. Bytes over are ignored.
#[derive(Clone, Copy)]
pub struct Counts<'a, N> {
    pub bytes: &'a [u8],
    /// Which number each is. It is public so that counts can stand in a constant, whose value calls no function.
    pub number: PhantomData<N>,
}

/// The counts of a row, two bytes each, as they stand in a step record's body.
pub type Row<'a> = Counts<'a, u16>;

/// Published counts, signed, eight bytes each, as they stand in a published record's body.
pub type Tally<'a> = Counts<'a, i64>;

impl<'a, N: Count> Counts<'a, N> {
    /// The counts in these bytes.
    pub fn new(bytes: &'a [u8]) -> Self
        ensures { result.bytes.now ≡ bytes.now }
    {
        Counts {
            bytes,
            number: PhantomData,
        }
    }

    /// How many counts there are.
    pub fn len(&self) -> usize
        ensures { result ≡ length (N.counts_in self.now.bytes.now) }
    {
        self.bytes.len() / N::SIZE
    }

    /// The count of a class.
    pub fn get(&self, class: usize) -> Option<N>
        ensures { result ≡ slice_get (N.counts_in self.now.bytes.now) class }
    {
        if class < self.len() {
            Some(N::read(self.bytes, N::SIZE * class))
        } else {
            None
        }
    }

    /// The first counts, as many as there are or as there is room for.
    pub fn first<const CAP: usize>(&self) -> ArrayVec<N, CAP>
    where
        N: Default,
        ensures first { result.items ≡ take CAP (N.counts_in self.now.bytes.now) }
        ensures all { length (N.counts_in self.now.bytes.now) ≤ CAP → result.items ≡ N.counts_in self.now.bytes.now }
    {
        let mut counts = ArrayVec::new();
        for count in self.iter() {
            if counts.is_full() {
                break;
            }
            counts.push(count);
        }
        counts
    }

    /// The counts one by one, class 0 first.
    pub fn iter(&self) -> Remaining<'a, N>
        ensures { result.counts.bytes.now ≡ self.now.bytes.now }
    {
        Remaining { counts: *self }
    }
}

/// The counts that an iteration has still to come to.
#[derive(Clone, Copy)]
pub struct Remaining<'a, N> {
    pub counts: Counts<'a, N>,
}

impl<N: Count> Iterator for Remaining<'_, N> {
    type Item = N;

    ghost next_gives = { YieldsFirst (λ left. N.counts_in left.counts.bytes.now) };

    ghost remaining = { item_count (λ left. N.counts_in left.counts.bytes.now) };

    fn next(&mut self) -> Option<N> {
        let first = self.counts.get(0)?;
        self.counts = Counts::new(&self.counts.bytes[N::SIZE..]);
        Some(first)
    }
}

impl<N: Count + fmt::Display> fmt::Display for Counts<'_, N> {
    fn fmt<W: fmt::Write>(&self, f: &mut fmt::Formatter<W>) -> fmt::Result {
        for count in self.iter() {
            write!(f, " {count}")?;
        }
        Ok(())
    }
}
