//! Publications: records one after the other in an output of the caller's, the end record last.

#![tactic(auto)]

mod event;
mod work;

pub use event::{Stage, read_event};
pub use work::{Ended, InWork};
