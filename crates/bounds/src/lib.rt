//! How far an epoch's published counts can lie from its true ones: the size of the largest cell drawn, times the breadth
//! of the step.

#![tactic(auto)]

ghost use Rattle.std.specs.Prelude.{◌≡◌, ◌*◌, List, ◌++◌, take, drop, ℤ};
ghost use Rattle.plan.specs.Plans.{breadth_asked};
ghost use Rattle.bounds.specs.Sizes.{greatest, AllWithin};

use plan::Plan;
use tape::Tape;

/// The size of the largest cell that an epoch has drawn.
#[derive(Clone, Copy, Debug, PartialEq, Eq)]
pub struct Bound {
    largest: u32,
}

impl Bound {
    /// The bound of an epoch that has drawn no cell.
    pub fn new() -> Bound
        ensures { result.largest ≡ 0 }
    {
        Bound { largest: 0 }
    }

    /// The size of the largest cell.
    pub fn largest(&self) -> u32
        ensures { result ≡ self.now.largest }
    {
        let Bound { largest } = *self;
        largest
    }

    /// Draws so many cells, or as many as are left. Where the bound covered the cells before, it covers these too.
    pub fn draw<T: Tape>(&mut self, tape: &mut T, count: usize)
        ensures largest { self.new.largest ≡ greatest self.old.largest (take count (T.cells tape.old)) }
        ensures tape { T.cells tape.new ≡ drop count (T.cells tape.old) }
        ensures covers { (before : List ℤ) → AllWithin self.old.largest before → AllWithin self.new.largest (before ++ take count (T.cells tape.old)) }
    {
        for _ in 0..count {
            let Ok(cell) = tape.draw() else {
                break;
            };
            self.largest = self.largest.max(cell.unsigned_abs());
        }
    }

    /// How far a count published at step `t` can lie from the true one.
    pub fn at<P: Plan>(&self, plan: &P, t: u16) -> u64
        ensures { result ≡ self.now.largest * breadth_asked (P.back plan.now) t }
    {
        u64::from(self.largest) * u64::from(plan.breadth(t))
    }
}
