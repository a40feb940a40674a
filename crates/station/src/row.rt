//! The counts of a row looked at.

ghost use Rattle.std.specs.Prelude.{◌≡◌, ◌<◌, length, MatchOption};
ghost use Rattle.runs.specs.Model.{first_above};

/// The most that a count of a row can be.
const MOST: u16 = 1000;

/// The first class whose count is too large.
pub(crate) fn first_over(row: &[u16]) -> Option<usize>
    ensures { MatchOption result (first_above row.now ≡ length row.now) (λ class. (class < length row.now) × (first_above row.now ≡ class)) }
{
    // by index: the rule of looking in class order asks for the class's number
    for class in 0..row.len() {
        if row[class] > MOST {
            return Some(class);
        }
    }
    None
}
