// How a transaction moves.
ghost use Rattle.std.specs.Prelude.{◌≡◌, ◌<◌, length, if◌then◌else◌, nat_lt};
ghost use Rattle.model.specs.Docket.{at, moved};
ghost use Rattle.model.specs.Turns.{status_after};
ghost use Rattle.transactions.specs.Entries.{status_in, entry_of};

use crate::entries::Transaction;
use model::{Standing, Status, Turn};

impl Transaction {
    // The status at one of the machines 0 to 7 takes its turn; a turn at any other changes nothing.
    pub fn take_turn(&mut self, standing: Standing, machine: u8, turn: Turn)
        ensures { entry_of self.new ≡ (if nat_lt machine 8 then moved (entry_of self.old) standing machine (status_after turn ((entry_of self.old).status machine)) else entry_of self.old) }
    {
        if machine < 8 {
            self.standing = standing;
            turn_at(&mut self.statuses, machine, turn);
        }
    }
}

fn turn_at(statuses: &mut [Status], machine: u8, turn: Turn)
    requires { machine < length statuses.old }
    ensures { status_in statuses.new ≡ at (status_in statuses.old) machine (status_after turn (status_in statuses.old machine)) }
{
    // By index: after a write through a slice's `get_mut` a proof knows no status.
    statuses[usize::from(machine)].on(turn);
}
