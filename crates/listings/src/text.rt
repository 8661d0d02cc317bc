// The text of a listing: a line for each outcome, and one for the fault that ended the run.
ghost use Rattle.std.specs.Prelude.{◌≡◌, ◌++◌, IfSome, IfOk, Some, string_bytes, OnOk};
ghost use Rattle.listings.specs.Text.{spaced_all, line, lines_from, fault_line, listing_text};

use register::Outcome;
use runfile::RunFault;
use std::alloc::{AllocError, Global};
use std::fmt;

// The values that a read gave, each with a space before it.
#[derive(Drop)]
struct Spaced<'a> {
    values: &'a [u32],
}

impl fmt::Display for Spaced<'_> {
    ghost output = { λ x. Some (spaced_all x.values.now) };

    fn fmt<W: fmt::Write>(&self, f: &mut fmt::Formatter<W>) -> fmt::Result {
        for value in self.values {
            write!(f, " {value}")?;
        }
        Ok(())
    }
}

// What came of a step.
#[derive(Drop)]
struct Line {
    step: usize,
    outcome: Outcome,
}

impl fmt::Display for Line {
    ghost output = { λ x. Some (line x.step x.outcome) };

    fn fmt<W: fmt::Write>(&self, f: &mut fmt::Formatter<W>) -> fmt::Result {
        let step = self.step;
        let number = self.outcome.number();
        let values = Spaced {
            values: self.outcome.values(),
        };
        writeln!(f, "{step} {number}{values}")
    }
}

// The fault that ended the run.
#[derive(Drop)]
struct FaultLine {
    fault: RunFault,
}

impl fmt::Display for FaultLine {
    ghost output = { λ x. Some (fault_line x.fault) };

    fn fmt<W: fmt::Write>(&self, f: &mut fmt::Formatter<W>) -> fmt::Result {
        let number = self.fault.number();
        let byte = self.fault.byte();
        match self.fault.step() {
            Some(step) => writeln!(f, "fault {number} byte {byte} step {step}"),
            None => writeln!(f, "fault {number} byte {byte}"),
        }
    }
}

fn append_lines(text: &mut String, outcomes: &[Outcome]) -> Result<(), AllocError>
    ensures { OnOk result (string_bytes text.new ≡ string_bytes text.old ++ lines_from 0 outcomes.now) }
{
    for (step, outcome) in outcomes.iter().enumerate() {
        let outcome = *outcome;
        let line = Line { step, outcome };
        write!(text, "{line}")?;
    }
    Ok(())
}

// What a run of calls came to: a line for each outcome, and one more for the fault that ended the run.
pub fn listing_text(
    heap: Global,
    outcomes: &[Outcome],
    fault: Option<RunFault>,
) -> Result<String, AllocError>
    ensures { IfOk result (λ text. string_bytes text ≡ listing_text outcomes.now fault) }
{
    let mut text = String::new(heap);
    append_lines(&mut text, outcomes)?;
    if let Some(fault) = fault {
        let last = FaultLine { fault };
        write!(text, "{last}")?;
    }
    Ok(text)
}
