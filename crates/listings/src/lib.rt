// The listing of a run: its text, line by line.
#![tactic(auto)]

pub mod listed;
pub mod text;

pub use listed::list_file;
pub use text::listing_text;
