// Making outcomes of answers, and what they say.
ghost use Rattle.std.specs.Prelude.{◌≡◌, []};
ghost use Rattle.register.specs.Outcomes.{outcome_number, outcome_values};
ghost use Rattle.register.specs.Refusals.{answer_number};

use crate::outcomes::Outcome;
use crate::refusals::Refusal;

impl Outcome {
    // What came of a call that gives nothing. Its name says so, as a conversion would not.
    pub fn of(answer: Result<(), Refusal>) -> Outcome
        ensures number { outcome_number result ≡ answer_number answer }
        ensures values { outcome_values result ≡ [] }
    {
        match answer {
            Ok(()) => Outcome::Done,
            Err(refusal) => Outcome::Refused(refusal),
        }
    }

    // The answer number: 0 where the call was accepted.
    pub fn number(self) -> u8
        ensures { result ≡ outcome_number self }
    {
        match self {
            Outcome::Done | Outcome::Read(_) => 0,
            Outcome::Refused(refusal) => refusal.number(),
        }
    }

    // The values that were given: those of a read that was accepted.
    pub fn values(&self) -> &[u32]
        ensures { result.now ≡ outcome_values self.now }
    {
        match self {
            Outcome::Read(values) => values.as_slice(),
            Outcome::Done | Outcome::Refused(_) => &[],
        }
    }
}
