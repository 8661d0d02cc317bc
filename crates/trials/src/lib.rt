// Tests of the whole: every fault of a run file with its byte, every refusal that can occur today, rows and full journals; and
// callers that are proved.
#![tactic(auto)]

pub mod callers;
#[cfg(test)]
mod files;
#[cfg(test)]
mod registers;
#[cfg(test)]
mod rows;
