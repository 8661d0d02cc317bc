// What a caller knows of a register that it was handed, whoever opened it: what the type of its row fixes, and what every
// store keeps. Each contract is proved from those of the register alone.
ghost use Rattle.std.specs.Prelude.{◌≡◌, ◌≤◌, false, [], OnOk};
ghost use Rattle.model.specs.Calls.{tidy as call_tidy};
ghost use Rattle.model.specs.Steps.{Step};
ghost use Rattle.model.specs.World.{room};
ghost use Rattle.register.specs.Meaning.{world, called, no_orders};

use register::{Refusal, Register};
use runs::FinishedRun;
use stores::{One, Row, Store};

// What keeps a run asks nothing of its row's type.
#[derive(Drop)]
pub struct LastRun<R> {
    pub finished: Option<FinishedRun<R>>,
}

// A register over one store has no second machine.
pub fn has_second_machine<S: Store>(register: &Register<One<S>>) -> bool
    ensures { result ≡ false }
{
    register.value(1, 0).is_ok()
}

// The machine's store is tidied, as by the register, and so takes at least 64 writes.
pub fn tidy_for_writes<R: Row>(register: &mut Register<R>, machine: u8) -> Result<(), Refusal>
    ensures step { Step no_orders (world R.Row.stores register.old) (called (call_tidy machine) result []) (world R.Row.stores register.new) }
    ensures room { OnOk result (64 ≤ room (world R.Row.stores register.new) machine) }
{
    register.tidy(machine)
}
