//! Records: everything that enters or leaves the product is one of nine kinds of them.
//! Four bytes of header announce the body's length and the kind, two bytes each; the lowest byte of a number comes first.

#![tactic(auto)]

mod counts;
mod kinds;
mod number;
mod reader;
mod text;
mod writer;

pub use counts::{Counts, Remaining, Row, Tally};
pub use kinds::{Kind, Record};
pub use reader::{Reading, read_record};
