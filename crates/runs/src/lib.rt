// Running a run file over a row of stores: loading its opening values, and making its calls one after the other.
#![tactic(auto)]

pub mod fitting;
mod loading;
pub mod running;
mod sound;
mod stepping;

pub use fitting::read_fitting_header;
pub use running::{FinishedRun, run};
