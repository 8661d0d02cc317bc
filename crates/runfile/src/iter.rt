// The steps of a run file, one after the other.
ghost use Rattle.std.specs.Prelude.{◌≡◌, ◌-◌};
ghost use Rattle.std.specs.Iterator.{at_most};
ghost use Rattle.runfile.specs.Walk.{Begins, NextStep};

use crate::faults::StepFault;
use crate::header::Header;
use crate::steps::{Step, read_step};
use std::ops::Range;

// The steps that are left: the place of the next, and the numbers of all. The first that is broken is the last.
#[derive(Debug, Drop)]
pub struct Steps<'a> {
    file: &'a [u8],
    place: usize,
    numbers: Range<u32>,
}

impl<'a> Steps<'a> {
    // The steps that a header counts.
    pub fn new(file: &'a [u8], header: Header) -> Steps<'a>
        ensures { Begins file.now header result }
    {
        Steps {
            file,
            place: header.first_step(),
            numbers: 0..header.steps,
        }
    }
}

impl<'a> Iterator for Steps<'a> {
    type Item = Result<Step<'a>, StepFault>;

    ghost next_gives = { NextStep };

    ghost remaining = { λ s. at_most (s.numbers.end - s.numbers.start) };

    fn next(&mut self) -> Option<Result<Step<'a>, StepFault>> {
        let number = self.numbers.next()?;
        match read_step(self.file, self.place, number) {
            Ok((step, next)) => {
                self.place = next;
                Some(Ok(step))
            }
            Err(fault) => {
                self.numbers.start = self.numbers.end;
                Some(Err(fault))
            }
        }
    }
}
