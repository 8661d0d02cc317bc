// Rows: a row means a list of stores, one for each machine. One store is a row, and two rows joined are a row.
ghost use Rattle.std.specs.Prelude.{◌≡◌, true, List, [], ◌∷◌, ◌++◌, length, if◌then◌else◌, None, ◌<◌, MatchOption};
ghost use Rattle.stores.specs.Meaning.{value_at, put_answer};
ghost use Rattle.stores.specs.Rows.{StoreState, AmpleFloors, PutChange, TidyChange, place_count, has_place, store_at, answer_at, ChangesOnlyAt};
ghost use Rattle.std.proofs.Common.{rules};

use crate::traits::{PutRefusal, Store};

pub trait Row {
    ghost stores: { Self → List StoreState };

    // The number of stores, or 255 where there are more. The other questions and writes take a place and what they are about,
    // which a caller has apart.
    fn count(&self) -> u8
        ensures { result ≡ place_count (stores self.now) };

    fn object_count(&self, place: u8) -> Option<usize>
        ensures { result ≡ answer_at (stores self.now) place (λ s. length s.values) };

    // None where the row has no such place or the store there no such object.
    fn value(&self, place: u8, object: usize) -> Option<u32>
        ensures { result ≡ (if has_place (stores self.now) place then value_at (store_at (stores self.now) place).values object else None) };

    fn remaining(&self, place: u8) -> Option<u32>
        ensures { result ≡ answer_at (stores self.now) place (λ s. s.room) };

    // None where the row has no such place.
    fn put(&mut self, place: u8, object: usize, value: u32) -> Option<Result<(), PutRefusal>>
        ensures answer { result ≡ answer_at (stores self.old) place (λ s. put_answer s.values s.room object) }
        ensures others { ChangesOnlyAt (stores self.old) place (stores self.new) }
        ensures change { has_place (stores self.old) place ≡ true → PutChange (store_at (stores self.old) place) object value (store_at (stores self.new) place) };

    // None where the row has no such place.
    fn tidy(&mut self, place: u8) -> Option<()>
        ensures answer { result ≡ answer_at (stores self.old) place (λ _. tt) }
        ensures others { ChangesOnlyAt (stores self.old) place (stores self.new) }
        ensures change { has_place (stores self.old) place ≡ true → TidyChange (store_at (stores self.old) place) (store_at (stores self.new) place) };

    ghost floors_are_ample: { (row : Self) → AmpleFloors (stores row) };
}

// A row of one store.
#[derive(Drop)]
pub struct One<S> {
    pub store: S,
}

impl<S: Store> One<S> {
    // The store, at the only place.
    fn at(&self, place: u8) -> Option<&S>
        ensures { MatchOption result (0 < place) (λ s. (place ≡ 0) × (s.now ≡ self.now.store)) }
    {
        (place == 0).then_some(&self.store)
    }
}

impl<S: Store> Row for One<S> {
    ghost stores = { λ r. record { values = S.Store.values r.store; room = S.Store.room r.store; floor = S.Store.FLOOR } ∷ [] };

    ghost floors_are_ample = { Prim.search rules };

    fn count(&self) -> u8 {
        1
    }

    fn object_count(&self, place: u8) -> Option<usize> {
        self.at(place).map(S::object_count)
    }

    fn value(&self, place: u8, object: usize) -> Option<u32> {
        self.at(place)?.value(object)
    }

    fn remaining(&self, place: u8) -> Option<u32> {
        self.at(place).map(S::remaining)
    }

    fn put(&mut self, place: u8, object: usize, value: u32) -> Option<Result<(), PutRefusal>> {
        match place {
            0 => Some(self.store.put(object, value)),
            _ => None,
        }
    }

    fn tidy(&mut self, place: u8) -> Option<()> {
        match place {
            0 => {
                self.store.tidy();
                Some(())
            }
            _ => None,
        }
    }
}
