//! The room in the output that an event needs.

ghost use Rattle.std.specs.Prelude.{◌≡◌};
ghost use Rattle.fault.specs.Told.{told};
ghost use Rattle.runs.specs.Model.{tell};

use fault::{Cause, Fault, Layer};

/// The room in the output with which an event record is looked at.
pub(crate) const LEAST_ROOM: usize = 120;

/// The refusal of an output with too little room.
pub(crate) fn no_room(left: usize) -> Fault
    ensures { told result ≡ tell 19 7 left }
{
    Cause::NoRoom(left).by(Layer::Publication)
}
