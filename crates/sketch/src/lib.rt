//! Sketches of an epoch's noise, drawn from a tape before the epoch is opened.

#![tactic(auto)]

ghost use Rattle.std.specs.Prelude.{◌≡◌, ◌^◌, ◌<◌, ◌≤◌, min, [], ◌∷◌, ◌++◌, length, drop};
ghost use Rattle.arrayvec.specs.ArrayVec.{array_vec_len};
ghost use Rattle.std.specs.Int.Signed.{mag};
ghost use Rattle.plan.specs.Plans.{horizon};
ghost use Rattle.sketch.specs.Asked.{horizon_asked};
ghost use Rattle.sketch.specs.Noise.{noise_after, step_from, steps_to, NoiseLaws};

use arrayvec::ArrayVec;
use fault::{Cause, Fault, Layer};
use plan::{HORIZON, MOST_STEPS, Plan};
use tape::Tape;

/// A step of a sketch: its number from 1 on, the first step of its part, the cell drawn for it, and the noise at it.
#[derive(Clone, Copy, Debug, Default, PartialEq, Eq)]
pub struct Step {
    pub number: u16,
    pub first: u16,
    pub cell: i32,
    pub noise: i64,
}

/// The steps of a sketch, from step 1 on.
#[derive(Drop)]
pub struct Course {
    steps: ArrayVec<Step, MOST_STEPS>,
    ghost fits: { array_vec_len steps ≤ horizon },
}

impl Course {
    fn new() -> Course
        ensures { result.steps.items ≡ [] }
    {
        Course {
            steps: ArrayVec::new(),
        }
    }

    /// The steps, from step 1 on.
    pub fn as_slice(&self) -> &[Step]
        ensures value { result.now ≡ self.now.steps.items }
        ensures fits { length result.now ≤ horizon }
    {
        self.steps.as_slice()
    }

    /// The noise at step `t`, which is 0 at step 0.
    fn noise_at(&self, t: u16) -> i64
        requires { t ≤ array_vec_len self.now.steps }
        ensures { result ≡ noise_after self.now.steps.items t }
    {
        match t {
            0 => 0,
            _ => self.steps[t as usize - 1].noise,
        }
    }

    /// Takes the next step, with its back step and its cell.
    fn push(&mut self, back: u16, cell: i32)
        requires room { array_vec_len self.old.steps < horizon }
        requires earlier { back ≤ array_vec_len self.old.steps }
        requires small { mag (noise_after self.old.steps.items back) < 2 ^ 62 }
        ensures { self.new.steps.items ≡ self.old.steps.items ++ step_from self.old.steps.items (array_vec_len self.old.steps) back cell ∷ [] }
    {
        let noise = i64::from(cell) + self.noise_at(back);
        self.steps.push(Step {
            number: self.steps.len() as u16 + 1,
            first: back + 1,
            cell,
            noise,
        });
    }
}

/// The horizon that a number names: itself from 1 to the last step that a plan speaks of; any other number is refused.
pub fn horizon_by_number(number: u16) -> Result<u16, Fault>
    ensures { result ≡ horizon_asked number }
{
    match number {
        1..=HORIZON => Ok(number),
        _ => Err(Cause::Horizon(number).by(Layer::Station)),
    }
}

/// Draws a cell for each step from 1 on, and answers these steps with their noise. It ends with `steps`, the horizon or
/// the last cell of the tape, whichever comes first. The laws of noise hold of every plan.
pub fn course_of<P: Plan, T: Tape>(plan: &P, tape: &mut T, steps: u16) -> Course
    ensures count { array_vec_len result.steps ≡ min (min steps horizon) (length (T.cells tape.old)) }
    ensures steps { result.steps.items ≡ steps_to (P.back plan.now) (T.cells tape.old) (array_vec_len result.steps) }
    ensures tape { T.cells tape.new ≡ drop (array_vec_len result.steps) (T.cells tape.old) }
    ensures laws { NoiseLaws (P.back plan.now) (T.cells tape.old) }
{
    let mut course = Course::new();
    for number in 1..=steps.min(HORIZON) {
        let Ok(cell) = tape.draw() else {
            break;
        };
        course.push(plan.back_step(number), cell);
    }
    course
}
