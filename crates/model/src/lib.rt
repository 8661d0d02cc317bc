// The words in which the register's contracts are written: calls, what a register means, what each call does,
// and the law that holds of every run. There is almost no code here.
#![tactic(auto)]

ghost use Rattle.model.specs.Examples.{ExamplesHold};
ghost use Rattle.model.specs.OneCopy.{OneCopyLaw};
ghost use Rattle.model.specs.Playing.{PlayedAsStepped};

pub mod statuses;

pub use statuses::{Standing, Status, Turn};

// Carries the proof of the one-copy law: no order of calls, restarts and refusals breaks it.
pub fn one_copy_is_kept()
    ensures { OneCopyLaw }
{}

// Carries the proof that the table of worked examples comes to what it must.
pub fn worked_examples_hold()
    ensures { ExamplesHold }
{}

// Carries the proof that the way in which the examples are played is one of the register's.
pub fn examples_are_runs()
    ensures { PlayedAsStepped }
{}
