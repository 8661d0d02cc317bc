// What came of a call: plain values, so that they can be kept in a slice or a vector.
pub mod methods;

use crate::refusals::Refusal;
use orders::FixedVec;

// The values that a read gave, at most eight.
pub type Values = FixedVec<u32, 8>;

// What came of a call. An enum of its own: a `Result<Option<Values>, Refusal>` could have no methods of ours.
#[derive(Clone, Copy)]
pub enum Outcome {
    // accepted, with nothing to give
    Done,
    // an accepted read
    Read(Values),
    Refused(Refusal),
}
