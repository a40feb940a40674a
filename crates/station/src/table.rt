//! The classes of a station: what each has counted, its noise at every step, and what was published last.

ghost use Rattle.std.specs.Prelude.{◌≡◌, ◌+◌, ◌*◌, ◌<◌, ◌≤◌, map, length, take, drop, replicate, pos, slice_index_or};
ghost use Rattle.std.specs.List.{All};
ghost use Rattle.arrayvec.specs.ArrayVec.{array_vec_len};
ghost use Rattle.tape.specs.Tapes.{undrawn};
ghost use Rattle.runs.specs.Model.{advance, empty_lane, noise_after, release, says_after};
ghost use Rattle.station.specs.Limits.{NoiseWithin};

use arrayvec::ArrayVec;
use finisher::{CLASSES, Finisher};
use plan::MOST_STEPS;
use tape::Tape;

/// What a class keeps: its true count, its noise of each step taken, and its newest published count.
#[derive(Drop)]
pub(crate) struct Lane {
    count: u32,
    noise: ArrayVec<i64, MOST_STEPS>,
    published: i64,
    ghost few: { count ≤ 1000 * array_vec_len noise },
    ghost near: { NoiseWithin noise.items },
}

impl Default for Lane {
    ghost use Rattle.station.specs.Lanes.{lane_of};

    ghost is_default = { λ lane. lane_of lane ≡ empty_lane };

    // by hand: no derive goes over ghost fields
    /// A class with no step taken.
    fn default() -> Lane {
        Lane {
            count: 0,
            noise: ArrayVec::new(),
            published: 0,
        }
    }
}

impl Lane {
    ghost use Rattle.station.specs.Lanes.{lane_of};

    /// Back to no step taken.
    fn clear(&mut self)
        ensures { lane_of self.new ≡ empty_lane }
    {
        self.count = 0;
        self.noise.clear();
        self.published = 0;
    }

    /// Takes a count and a cell as the next step.
    fn advance(&mut self, back: usize, count: u16, cell: i32)
        requires room { array_vec_len self.old.noise < 1024 }
        requires back { back ≤ array_vec_len self.old.noise }
        requires small { count ≤ 1000 }
        ensures { lane_of self.new ≡ advance back (lane_of self.old) count cell }
    {
        let before = self.noise_at(back);
        self.noise.push(i64::from(cell) + before);
        self.count += u32::from(count);
    }

    /// The noise of a step; 0 for step 0.
    fn noise_at(&self, step: usize) -> i64
        requires { step ≤ array_vec_len self.now.noise }
        ensures { result ≡ noise_after self.now.noise.items step }
    {
        if step > 0 { self.noise[step - 1] } else { 0 }
    }

    /// The true count with the noise of the newest step.
    fn release(&self) -> i64
        ensures { result ≡ release (lane_of self.now) }
    {
        i64::from(self.count) + self.noise_at(self.noise.len())
    }
}

/// The next cell of a tape that has one.
fn next_cell<T: Tape>(tape: &mut T) -> i32
    requires { 0 < length (T.cells tape.old) }
    ensures cell { result ≡ slice_index_or (T.cells tape.old) 0 (pos 0) }
    ensures moved { T.cells tape.new ≡ undrawn (T.cells tape.old) }
{
    tape.draw().unwrap()
}

/// The classes of a station, and the steps that they have taken.
#[derive(Drop)]
pub(crate) struct Table {
    classes: usize,
    steps: u16,
    // an array, since a vector fills the places behind its items once more when it is cut to the number of classes
    lanes: [Lane; CLASSES],
    ghost some: { (1 ≤ classes) × (classes ≤ 8) },
    ghost few: { steps ≤ 1024 },
    ghost even: { All (λ lane. array_vec_len lane.noise ≡ steps) (take classes lanes) },
}

impl Table {
    ghost use Rattle.station.specs.Lanes.{advanced_by, lanes_of, published_by};

    /// A table of so many classes with no step taken.
    pub(crate) fn new(classes: usize) -> Table
        requires { (1 ≤ classes) × (classes ≤ 8) }
        ensures numbers { (result.classes ≡ classes) × (result.steps ≡ 0) }
        ensures lanes { lanes_of (take classes result.lanes) ≡ replicate classes empty_lane }
    {
        Table {
            classes,
            steps: 0,
            lanes: Default::default(),
        }
    }

    /// Back to no step taken.
    pub(crate) fn clear(&mut self)
        ensures numbers { (self.new.classes ≡ self.old.classes) × (self.new.steps ≡ 0) }
        ensures lanes { lanes_of (take self.new.classes self.new.lanes) ≡ replicate self.old.classes empty_lane }
    {
        for lane in self.lanes[..self.classes].iter_mut() {
            lane.clear();
        }
        self.steps = 0;
    }

    /// The number of classes.
    pub(crate) fn classes(&self) -> usize
        ensures { result ≡ self.now.classes }
    {
        self.classes
    }

    /// The steps taken.
    pub(crate) fn steps(&self) -> u16
        ensures { result ≡ self.now.steps }
    {
        self.steps
    }

    /// The newest published count of a class.
    pub(crate) fn published(&self, class: usize) -> i64
        requires { class < self.now.classes }
        ensures { result ≡ (slice_index_or (lanes_of (take self.now.classes self.now.lanes)) class empty_lane).published }
    {
        self.lanes[class].published
    }

    /// Takes a row: each class, class 0 first, its count and the next cell, and publishes what the finisher makes of its
    /// release.
    pub(crate) fn take_row<T: Tape, F: Finisher>(
        &mut self,
        back: usize,
        row: &[u16],
        tape: &mut T,
        finisher: &mut F,
    )
        requires room { self.old.steps < 1024 }
        requires back { back ≤ self.old.steps }
        requires whole { length row.now ≡ self.old.classes }
        requires small { All (λ n. n ≤ 1000) row.now }
        requires enough { length row.now ≤ length (T.cells tape.old) }
        ensures numbers { (self.new.classes ≡ self.old.classes) × (self.new.steps ≡ self.old.steps + 1) }
        ensures lanes { lanes_of (take self.new.classes self.new.lanes) ≡ published_by (F.says finisher.old) 0 (advanced_by back (take self.old.classes self.old.lanes) row.now (T.cells tape.old)) }
        ensures drawn { T.cells tape.new ≡ drop (length row.now) (T.cells tape.old) }
        ensures finished { F.says finisher.new ≡ says_after (F.says finisher.old) 0 (map release (advanced_by back (take self.old.classes self.old.lanes) row.now (T.cells tape.old))) }
    {
        for (class, lane) in self.lanes[..self.classes].iter_mut().enumerate() {
            let cell = next_cell(tape);
            // by the class: over a zip of these lanes with the row the check learns nothing of what is written
            lane.advance(back, row[class], cell);
            let release = lane.release();
            lane.published = finisher.finish(class, release).unwrap();
        }
        self.steps += 1;
    }
}
