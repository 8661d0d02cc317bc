// What the machines together say of a transaction.
#![tactic(auto, using(model::proofs::Ranges::all_over_range))]

ghost use Rattle.std.specs.Prelude.{◌≡◌, not};
ghost use Rattle.model.specs.Checks.{all_to};
ghost use Rattle.model.specs.Statuses.{is_promised, is_dropped, is_holding};
ghost use Rattle.transactions.specs.Entries.{entry_of};

use crate::entries::Transaction;

impl Transaction {
    // Three questions of one line, each of its own status.

    // Whether each of the first `machines` machines has promised.
    pub fn all_promised(&self, machines: u8) -> bool
        ensures { result ≡ all_to machines (λ k. is_promised ((entry_of self.now).status k)) }
    {
        (0..machines).all(|machine| self.status(machine).is_promised())
    }

    // Whether none of the first `machines` machines has dropped it.
    pub fn none_dropped(&self, machines: u8) -> bool
        ensures { result ≡ all_to machines (λ k. not (is_dropped ((entry_of self.now).status k))) }
    {
        (0..machines).all(|machine| !self.status(machine).is_dropped())
    }

    // Whether it holds its objects at none of the first `machines` machines.
    pub fn none_holding(&self, machines: u8) -> bool
        ensures { result ≡ all_to machines (λ k. not (is_holding ((entry_of self.now).status k))) }
    {
        (0..machines).all(|machine| !self.status(machine).is_holding())
    }
}
