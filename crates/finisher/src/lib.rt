//! Finishers: how a release becomes a published count.

#![tactic(auto)]

ghost use Rattle.std.specs.Prelude.{◌≡◌, ◌<◌, ◌≤◌};
ghost use Rattle.finisher.specs.Finishers.{class_limit, begins, finishes, Says, after, finished, Stands, Same, Keeps};
ghost use Rattle.finisher.specs.Kinds.{plain, everywhere, none_held, rising, held_near, floored, rising_says, rising_stands, floor_says, floor_stands};
ghost use Rattle.finisher.specs.Examples.{WorkedFinishers};
ghost use Rattle.finisher.specs.Nearness.{plain-keeps, rising-keeps, floor-keeps};

use fault::{Cause, Fault, Layer};

/// The number of classes.
pub const CLASSES: usize = 8;

/// A finisher turns a release, class by class, into a published count. It means two things, each told for the state
/// after any further calls: what a finish would answer, and the error bounds and true counts at which each class stands.
pub trait Finisher {
    ghost says: { Self → Says };

    ghost stands: { Self → Stands };

    /// Starts anew.
    fn begin(&mut self)
        ensures moved { says self.new ≡ after begins (says self.old) }
        ensures stood { Same (stands self.new) (after begins (stands self.old)) };

    /// The published count for a release; refused, with nothing changed, where there is no such class.
    fn finish(&mut self, class: usize, release: i64) -> Result<i64, Fault>
        ensures answer { result ≡ finished (says self.old) class release }
        ensures moved { class < class_limit → says self.new ≡ after (finishes class release) (says self.old) }
        ensures stood { class < class_limit → Same (stands self.new) (after (finishes class release) (stands self.old)) }
        ensures refused { class_limit ≤ class → self.new ≡ self.old };

    /// A class stands at every bound after a begin, and keeps a release's error where it stands.
    ghost keeps: { (f : Self) → Keeps (says f) (stands f) };
}

/// Answers the release.
#[derive(Drop)]
pub struct Plain;

impl Finisher for Plain {
    ghost says = { λ _. plain };

    ghost stands = { λ _. everywhere };

    ghost keeps = { λ f. plain-keeps };

    fn begin(&mut self) {}

    fn finish(&mut self, class: usize, release: i64) -> Result<i64, Fault> {
        if class < CLASSES {
            Ok(release)
        } else {
            Err(Cause::NoSuchClass(class).by(Layer::Finisher))
        }
    }
}

/// Answers, for each class, the greatest of 0 and all answers from below since begin.
#[derive(Drop)]
pub struct Rising<F> {
    below: F,
    held: [i64; CLASSES],
}

impl<F: Finisher> Rising<F> {
    /// Holds 0 for each class.
    pub fn new(below: F) -> Self
        ensures says { rising_says F.says result ≡ rising (F.says below) none_held }
        ensures stands { Same (rising_stands F.says F.stands result) (held_near (F.says below) (F.stands below) none_held) }
    {
        Rising {
            below,
            held: [0; CLASSES],
        }
    }
}

impl<F: Finisher> Finisher for Rising<F> {
    ghost says = { rising_says F.says };

    ghost stands = { rising_stands F.says F.stands };

    ghost keeps = { λ f. rising-keeps (F.says f.below) (F.stands f.below) (F.keeps f.below) f.held };

    fn begin(&mut self) {
        self.below.begin();
        self.held = [0; CLASSES];
    }

    fn finish(&mut self, class: usize, release: i64) -> Result<i64, Fault> {
        let answer = self.below.finish(class, release)?;
        let top = answer.max(self.held[class]);
        self.held[class] = top;
        Ok(top)
    }
}

/// Lifts negative answers from below to 0.
#[derive(Drop)]
pub struct Floor<F>(F);

impl<F: Finisher> Floor<F> {
    /// Stands on `below`.
    pub fn new(below: F) -> Self
        ensures says { floor_says F.says result ≡ floored (F.says below) }
        ensures stands { Same (floor_stands F.stands result) (F.stands below) }
    {
        Floor(below)
    }
}

impl<F: Finisher> Finisher for Floor<F> {
    ghost says = { floor_says F.says };

    ghost stands = { floor_stands F.stands };

    ghost keeps = { λ f. floor-keeps (F.says f.0) (F.stands f.0) (F.keeps f.0) };

    fn begin(&mut self) {
        self.0.begin();
    }

    fn finish(&mut self, class: usize, release: i64) -> Result<i64, Fault> {
        let answer = self.0.finish(class, release)?;
        Ok(answer.max(0))
    }
}

/// The worked example holds.
pub fn worked_finishers()
    ensures { WorkedFinishers }
{}
