// Replica stores, and rows of them: a store holds one machine's copy of the register.
#![tactic(auto)]

mod entries;
pub mod joins;
pub mod journals;
mod making;
pub mod mixed;
pub mod rows;
pub mod tables;
pub mod traits;
pub mod writes;

pub use joins::Join;
pub use journals::JournalStore;
pub use rows::{One, Row};
pub use tables::TableStore;
pub use traits::{MakeError, PutRefusal, Store};
pub use writes::write;
