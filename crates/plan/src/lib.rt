//! Plans. A plan gives each step from 1 to the horizon a back step below it. The part of a step is the steps after its
//! back step, up to itself; its cover is that part and the cover of the back step, so that the parts of a cover lie
//! side by side from step 1 on.

#![tactic(auto)]

ghost use Rattle.std.specs.Prelude.{◌≡◌, ℕ, ◌≤◌, length};
ghost use Rattle.arrayvec.specs.ArrayVec.{array_vec_len};
ghost use Rattle.plan.specs.Plans.{horizon, Falls, back_asked, depth_asked, breadth_asked, cover_asked};
ghost use Rattle.plan.specs.Known.{single, dyadic};
ghost use Rattle.plan.specs.Choice.{back_of, choice, default_plan};
ghost use Rattle.plan.specs.Laws.{CoverLaws};
ghost use Rattle.plan.specs.Formulas.{Formulas};
ghost use Rattle.plan.specs.Examples.{Examples};
ghost use Rattle.plan.specs.Singles.{single-falls};
ghost use Rattle.plan.specs.Dyadics.{dyadic-falls};
ghost use Rattle.plan.specs.ChosenFalls.{chosen-falls};

use arrayvec::ArrayVec;
use fault::{Cause, Fault, Layer};

/// The last step that a plan speaks of.
pub const HORIZON: u16 = 1024;

/// The most steps that an epoch has, and the most parts that a cover has.
pub const MOST_STEPS: usize = HORIZON as usize;

/// A plan: a back step for each step from 1 to the horizon. It means these back steps alone, and never changes.
pub trait Plan {
    /// The back step of each step.
    ghost back: { Self → ℕ → ℕ };

    /// The back step of step `t`; 0 where `t` is not from 1 to the horizon.
    fn back_step(&self, t: u16) -> u16
        ensures { result ≡ back_asked (back self.now) t };

    /// How many of the parts 1 to `k` lie over one another at the worst step; 0 beyond the horizon.
    fn depth(&self, k: u16) -> u16
        ensures { result ≡ depth_asked (back self.now) k };

    /// How many parts the longest cover has among the steps up to `k`; 0 beyond the horizon.
    fn breadth(&self, k: u16) -> u16
        ensures { result ≡ breadth_asked (back self.now) k };

    /// Each back step lies below its step.
    ghost falls: { (plan : Self) → Falls (back plan) };
}

/// The plan in which each step goes back by one.
#[derive(Clone, Copy, Debug, PartialEq, Eq)]
pub struct Single;

impl Plan for Single {
    ghost back = { λ _. single };

    ghost falls = { λ plan. single-falls horizon };

    fn back_step(&self, t: u16) -> u16 {
        match t {
            1..=HORIZON => t - 1,
            _ => 0,
        }
    }

    fn depth(&self, k: u16) -> u16 {
        match k {
            1..=HORIZON => 1,
            _ => 0,
        }
    }

    fn breadth(&self, k: u16) -> u16 {
        match k {
            0..=HORIZON => k,
            _ => 0,
        }
    }
}

/// The plan in which each step goes back by the largest power of two that divides it.
#[derive(Clone, Copy, Debug, PartialEq, Eq)]
pub struct Dyadic;

impl Plan for Dyadic {
    ghost back = { λ _. dyadic };

    ghost falls = { λ plan. dyadic-falls horizon };

    fn back_step(&self, t: u16) -> u16 {
        match t {
            1..=HORIZON => t & (t - 1),
            _ => 0,
        }
    }

    fn depth(&self, k: u16) -> u16 {
        match k {
            1..=HORIZON => k.ilog2() as u16 + 1,
            _ => 0,
        }
    }

    fn breadth(&self, k: u16) -> u16 {
        match k {
            0..=HORIZON => (k + 1).ilog2() as u16,
            _ => 0,
        }
    }
}

/// A plan that a number names. Where none is named it is the dyadic one.
#[derive(Clone, Copy, Debug, PartialEq, Eq)]
pub enum Chosen {
    Single,
    Dyadic,
}

/// The plan of a number: 1 the single plan, 2 the dyadic one; any other number is refused.
impl TryFrom<u16> for Chosen {
    type Error = Fault;

    ghost try_from_gives = { λ number result. result ≡ choice number };

    fn try_from(number: u16) -> Result<Self, Fault> {
        match number {
            1 => Ok(Chosen::Single),
            2 => Ok(Chosen::Dyadic),
            _ => Err(Cause::OutOfRange(number.into()).by(Layer::Plan)),
        }
    }
}

// by hand, so that the contract names the default plan
impl Default for Chosen {
    ghost is_default = { λ plan. plan ≡ default_plan };

    fn default() -> Self {
        Self::Dyadic
    }
}

// A plan that is chosen while the program runs is an enum, so each question is a match: no boxed plan can be handed out.
impl Plan for Chosen {
    ghost back = { back_of };

    ghost falls = { chosen-falls };

    fn back_step(&self, t: u16) -> u16 {
        match self {
            Chosen::Single => Single.back_step(t),
            Chosen::Dyadic => Dyadic.back_step(t),
        }
    }

    fn depth(&self, k: u16) -> u16 {
        match self {
            Chosen::Single => Single.depth(k),
            Chosen::Dyadic => Dyadic.depth(k),
        }
    }

    fn breadth(&self, k: u16) -> u16 {
        match self {
            Chosen::Single => Single.breadth(k),
            Chosen::Dyadic => Dyadic.breadth(k),
        }
    }
}

/// The cover of a step: the steps whose parts form it, newest first.
#[derive(Drop)]
pub struct Cover {
    steps: ArrayVec<u16, MOST_STEPS>,
    ghost fits: { array_vec_len steps ≤ horizon },
}

impl Cover {
    /// The steps of the cover's parts, newest first.
    pub fn as_slice(&self) -> &[u16]
        ensures value { result.now ≡ self.now.steps.items }
        ensures fits { length result.now ≤ horizon }
    {
        self.steps.as_slice()
    }
}

/// The cover of step `t`: `t`, its back step, the back step of that, and so on down to 0; empty beyond the horizon.
/// The laws of covers, depth and breadth hold of every plan.
pub fn cover_of<P: Plan>(plan: &P, t: u16) -> Cover
    ensures steps { result.steps.items ≡ cover_asked (P.back plan.now) t }
    ensures laws { CoverLaws (P.back plan.now) }
{
    let mut steps = ArrayVec::new();
    let mut at = if t <= HORIZON { t } else { 0 };
    while at > 0 {
        steps.push(at);
        at = plan.back_step(at);
    }
    Cover { steps }
}

/// Asks the prover for the closed forms of the known plans.
pub fn formulas_stand()
    ensures { Formulas }
{}

/// Asks the prover for the worked examples.
pub fn examples_stand()
    ensures { Examples }
{}
