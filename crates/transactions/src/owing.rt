// How many writes transactions owe. The rules of a rulebook stand spelled out in each contract: a rulebook is the caller's, and
// no value of ours has it.
ghost use Rattle.std.specs.Prelude.{◌≡◌, ◌≤◌};
ghost use Rattle.orders.specs.Rulebooks.{rules_of};
ghost use Rattle.model.specs.Orders.{count_true, writes, owes, owed};
ghost use Rattle.transactions.specs.Entries.{entry_of};
ghost use Rattle.transactions.specs.Tables.{slot_entry, docket_in, table_docket};

use crate::entries::Transaction;
use crate::tables::Table;
use orders::Rulebook;

impl Transaction {
    // The number of positions that the order writes.
    pub fn write_count<B: Rulebook>(&self, rulebook: &B) -> u32
        ensures count { result ≡ writes (rules_of B.Rulebook.lawful B.Rulebook.mask B.Rulebook.news) (entry_of self.now) }
        ensures few { result ≤ 8 }
    {
        count_written(rulebook, self.order(), self.objects().len())
    }
}

impl Table {
    // The writes owed at the machine.
    pub fn owed<B: Rulebook>(&self, rulebook: &B, machine: u8) -> u32
        ensures sum { result ≡ owed (rules_of B.Rulebook.lawful B.Rulebook.mask B.Rulebook.news) (table_docket self.now) machine }
        ensures few { result ≤ 512 }
    {
        sum_owed(&self.slots, rulebook, machine)
    }
}

// A function over the slots alone, so that its proof does not stand at the public one.
fn sum_owed<B: Rulebook>(slots: &[Option<Transaction>; 64], rulebook: &B, machine: u8) -> u32
    ensures sum { result ≡ owed (rules_of B.Rulebook.lawful B.Rulebook.mask B.Rulebook.news) (docket_in slots.now) machine }
    ensures few { result ≤ 512 }
{
    slots
        .iter()
        .map(|slot| slot_owes(slot, rulebook, machine))
        .sum()
}

fn slot_owes<B: Rulebook>(slot: &Option<Transaction>, rulebook: &B, machine: u8) -> u32
    ensures count { result ≡ owes (rules_of B.Rulebook.lawful B.Rulebook.mask B.Rulebook.news) machine (slot_entry slot.now) }
    ensures few { result ≤ 8 }
{
    match slot {
        Some(transaction) if transaction.status(machine).is_promised() => {
            transaction.write_count(rulebook)
        }
        _ => 0,
    }
}

fn count_written<B: Rulebook>(rulebook: &B, order: &[u8], count: usize) -> u32
    requires { count ≤ 8 }
    ensures count { result ≡ count_true (B.Rulebook.mask order.now count) }
    ensures few { result ≤ 8 }
{
    (0..count)
        .filter(|position| rulebook.writes(order, count, *position))
        .count() as u32
}
