// The table of transactions: 64 slots, each empty or with a transaction in use.
ghost use Rattle.std.specs.Prelude.{◌≡◌, ℕ, ◌<◌, if◌then◌else◌, None as no_slot, nat_lt, slice_index_or};
ghost use Rattle.model.specs.Docket.{at, blank, raised};
ghost use Rattle.model.specs.Orders.{held};
ghost use Rattle.transactions.specs.Tables.{slot_entry, docket_in, table_docket};
ghost use Rattle.model.specs.Questions.{holder};

use crate::entries::Transaction;
use model::Turn;

#[derive(Clone, Copy)]
pub struct Table {
    pub(crate) slots: [Option<Transaction>; 64],
}

impl Table {
    // Every transaction is absent.
    pub fn empty() -> Table
        ensures { (t : ℕ) → table_docket result t ≡ blank }
    {
        Table { slots: no_slots() }
    }

    // The transaction in use under that number.
    pub fn get(&self, t: u8) -> Option<Transaction>
        ensures { slot_entry result ≡ table_docket self.now t }
    {
        *self.slots.get(usize::from(t))?
    }

    // Another transaction, or none, under a number below 64; there is no slot for any other.
    pub fn put(&mut self, t: u8, slot: Option<Transaction>)
        ensures { table_docket self.new ≡ (if nat_lt t 64 then at (table_docket self.old) t (slot_entry slot) else table_docket self.old) }
    {
        if t < 64 {
            // By index: after a write through a slice's `get_mut` a proof knows no slot.
            self.slots[usize::from(t)] = slot;
        }
    }
}

// What all transactions do and are together.
impl Table {
    // One of the machines 0 to 7 has come up: what is pending there is dropped, what is promised is kept.
    pub fn raise(&mut self, machine: u8)
        ensures { table_docket self.new ≡ (if nat_lt machine 8 then raised (table_docket self.old) machine else table_docket self.old) }
    {
        if machine < 8 {
            raise_all(&mut self.slots, machine);
        }
    }

    // Whether an object of the list is held at the machine.
    pub fn held(&self, machine: u8, list: &[u8]) -> bool
        ensures { result ≡ held (table_docket self.now) machine list.now }
    {
        any_holds(&self.slots, machine, list)
    }

    // The transaction that holds the object at the machine, if there is one: the lowest, were there more.
    pub fn holder(&self, machine: u8, object: u8) -> Option<u8>
        ensures { result ≡ holder (table_docket self.now) machine object }
    {
        find_holder(&self.slots, machine, object)
    }
}

// Functions over the slots alone, so that their proofs do not stand at the public functions.

fn raise_all(slots: &mut [Option<Transaction>], machine: u8)
    requires { machine < 8 }
    ensures { docket_in slots.new ≡ raised (docket_in slots.old) machine }
{
    for slot in slots.iter_mut() {
        if let Some(transaction) = slot {
            transaction.take_turn(transaction.standing(), machine, Turn::Up);
        }
    }
}

fn any_holds(slots: &[Option<Transaction>; 64], machine: u8, list: &[u8]) -> bool
    ensures { result ≡ held (docket_in slots.now) machine list.now }
{
    slots
        .iter()
        .any(|slot| matches!(slot, Some(x) if x.holds(machine, list)))
}

fn find_holder(slots: &[Option<Transaction>; 64], machine: u8, object: u8) -> Option<u8>
    ensures { result ≡ holder (docket_in slots.now) machine object }
{
    slots
        .iter()
        .position(|slot| matches!(slot, Some(x) if x.holds_object(machine, object)))
        .map(|t| t as u8)
}

fn no_slots() -> [Option<Transaction>; 64]
    ensures { (t : ℕ) → slice_index_or result t no_slot ≡ no_slot }
{
    [None; 64]
}
