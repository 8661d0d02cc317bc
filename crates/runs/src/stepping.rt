// Making the calls of a run file's steps.
ghost use Rattle.std.specs.Prelude.{◌≡◌, ◌+◌, ◌*◌, ◌≤◌, [], length, vec_capacity};
ghost use Rattle.std.specs.Result.{result_err};
ghost use Rattle.model.specs.Calls.{read as call_read};
ghost use Rattle.model.specs.Steps.{Step as WorldStep};
ghost use Rattle.register.specs.Meaning.{world, no_orders};
ghost use Rattle.register.specs.Outcomes.{event_of};
ghost use Rattle.runfile.specs.FileFormat.{calls_from, end_from};
ghost use Rattle.runfile.specs.HeaderFormat.{value_place};
ghost use Rattle.runfile.specs.StepFormat.{call_of};
ghost use Rattle.runs.specs.Running.{Ran};

use crate::sound::SoundFile;
use register::{Outcome, Register, Values};
use runfile::{RunFault, Step, Steps};
use stores::Row;

// The call of one step: a match, since the calls are a closed list, each with arguments of its own. A read is lent a buffer of eight values.
pub(crate) fn perform<R: Row>(register: &mut Register<R>, step: Step<'_>) -> Outcome
    ensures { WorldStep no_orders (world R.Row.stores register.old) (event_of (call_of step.entry) result) (world R.Row.stores register.new) }
{
    match step {
        Step::Down { machine } => Outcome::of(register.down(machine)),
        Step::Up { machine } => Outcome::of(register.up(machine)),
        Step::Tidy { machine } => Outcome::of(register.tidy(machine)),
        Step::Read { machine, list } => read_out(register, machine, list),
    }
}

fn read_out<R: Row>(register: &Register<R>, machine: u8, list: &[u8]) -> Outcome
    ensures { WorldStep no_orders (world R.Row.stores register.now) (event_of (call_read machine list.now 8) result) (world R.Row.stores register.now) }
{
    let mut buffer = [0; 8];
    match register.read(machine, list, &mut buffer) {
        Ok(()) => Outcome::Read(Values::front(buffer, list.len())),
        Err(refusal) => Outcome::Refused(refusal),
    }
}

impl SoundFile<'_> {
    // Makes the calls of the steps in turn, up to the first that is broken. There is room for all outcomes.
    pub(crate) fn run_steps<R: Row>(
        &self,
        register: &mut Register<R>,
        outcomes: &mut Vec<Outcome>,
    ) -> Result<(), RunFault>
        requires empty { outcomes.old.items ≡ [] }
        requires reserved { length self.now.bytes.now ≤ 4 + 5 * vec_capacity outcomes.old }
        ensures steps { Ran (world R.Row.stores register.old) (calls_from self.now.header.steps self.now.bytes.now (value_place self.now.header.objects)) outcomes.new.items (world R.Row.stores register.new) }
        ensures end { result_err result ≡ end_from self.now.header.steps self.now.bytes.now (value_place self.now.header.objects) 0 }
    {
        for step in Steps::new(self.bytes, self.header) {
            outcomes.push_reserved(perform(register, step?));
        }
        Ok(())
    }
}
