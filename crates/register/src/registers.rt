// What a register holds.
use crate::refusals::Refusal;
use std::marker::Model;

#[derive(Drop)]
pub struct Register<R> {
    pub(crate) row: R,
    // or why the register was not well opened
    pub(crate) opened: Result<(), Refusal>,
    // a flag for each machine
    pub(crate) up: [bool; 8],
}

// A docket is a function, which no `Value` may be. So this is no world of the model; `world` makes one of it. The row is seen
// whole: what its type says of its stores, their number and their floors, holds of any register over it.
impl<R> Model for Register<R> {
    ghost use Rattle.register.specs.State.{RegisterState};

    ghost Value = { RegisterState R };

    ghost view = { λ r. record { opened = r.opened; up = r.up; row = r.row } };
}
