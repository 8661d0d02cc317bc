// The run file: its header, its opening values and its steps, read from bytes, with every fault and its place.
#![tactic(auto)]

pub mod faults;
pub mod header;
pub mod iter;
pub mod steps;
mod tags;

pub use faults::{FieldFault, FieldFaultKind, HeaderFault, HeaderFaultKind, RunFault, StepFault};
pub use header::{Header, opening_value, read_header};
pub use iter::Steps;
pub use steps::{Step, read_step};
