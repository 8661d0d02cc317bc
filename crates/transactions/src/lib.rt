// The transactions that a register keeps: a table of 64.
#![tactic(auto)]

pub mod entries;
pub mod owing;
pub mod tables;

pub use entries::Transaction;
pub use tables::Table;
