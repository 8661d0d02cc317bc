// The register: one copy of its values at each machine of a row, with calls that refuse by number.
#![tactic(auto)]

pub mod calls;
pub mod opening;
pub mod outcomes;
mod reading;
pub mod refusals;
pub mod registers;

pub use outcomes::{Outcome, Values};
pub use refusals::Refusal;
pub use registers::Register;
