// Object lists and orders: which objects a change is about, and what it makes of their values.
#![tactic(auto)]

pub mod assignment;
mod clauses;
pub mod faults;
pub mod fixed;
pub mod list;
mod movement;
pub mod order;
pub mod rulebook;
pub mod transfer;
mod values;

pub use assignment::Assignment;
pub use faults::ListFault;
pub use fixed::FixedVec;
pub use list::ObjectList;
pub use order::Order;
pub use rulebook::Rulebook;
pub use transfer::Transfer;
