// How a transaction starts, and what it says.
ghost use Rattle.std.specs.Prelude.{◌≡◌, ◌<◌, ◌≤◌, true, length, MatchOption};
ghost use Rattle.orders.specs.Ascending.{ascending};
ghost use Rattle.orders.specs.Kept.{order_bytes};
ghost use Rattle.orders.specs.Lists.{objects_of};
ghost use Rattle.model.specs.Orders.{overlap};
ghost use Rattle.model.specs.Steps.{started};
ghost use Rattle.transactions.specs.Entries.{entry_of, holds_in, holds_object};

use crate::entries::Transaction;
use model::{Standing, Status};
use orders::{ObjectList, Order};

impl Transaction {
    // A transaction just started, unless the coordinator is none of the machines 0 to 7.
    pub fn start(coordinator: u8, objects: ObjectList, order: Order) -> Option<Transaction>
        ensures { MatchOption result (8 ≤ coordinator) (λ x. entry_of x ≡ started coordinator (objects_of objects) (order_bytes order)) }
    {
        if coordinator >= 8 {
            return None;
        }
        Some(Transaction {
            standing: Standing::Pending,
            coordinator,
            objects,
            order,
            statuses: [Status::None; 8],
        })
    }

    pub fn standing(&self) -> Standing
        ensures { result ≡ (entry_of self.now).standing }
    {
        self.standing
    }

    pub fn coordinator(&self) -> u8
        ensures machine { result ≡ (entry_of self.now).coordinator }
        ensures there { result < 8 }
    {
        self.coordinator
    }

    pub fn objects(&self) -> &[u8]
        ensures objects { result.now ≡ (entry_of self.now).objects }
        ensures few { length result.now ≤ 8 }
        ensures ordered { ascending result.now ≡ true }
    {
        self.objects.as_slice()
    }

    pub fn order(&self) -> &[u8]
        ensures { result.now ≡ (entry_of self.now).order }
    {
        self.order.as_slice()
    }

    pub fn status(&self, machine: u8) -> Status
        ensures { result ≡ (entry_of self.now).status machine }
    {
        self.statuses
            .get(usize::from(machine))
            .copied()
            .unwrap_or(Status::None)
    }

    // Whether the transaction holds an object of the list at the machine.
    pub fn holds(&self, machine: u8, list: &[u8]) -> bool
        ensures { result ≡ holds_in (entry_of self.now) machine list.now }
    {
        self.status(machine).is_holding() && overlaps(self.objects(), list)
    }

    // Whether the transaction holds the object at the machine.
    #[tactic(auto, using(crate::proofs::Found::listed_any))]
    pub fn holds_object(&self, machine: u8, object: u8) -> bool
        ensures { result ≡ holds_object (entry_of self.now) machine object }
    {
        self.objects().contains(&object) && self.status(machine).is_holding()
    }
}

// Whether the two lists have an object in common.
fn overlaps(these: &[u8], those: &[u8]) -> bool
    ensures { result ≡ overlap these.now those.now }
{
    these.iter().any(|object| those.contains(object))
}
