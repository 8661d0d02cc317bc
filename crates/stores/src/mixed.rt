// Rows of one, two and eight machines, with table stores at the even places and journal stores at the odd ones.
ghost use Rattle.std.specs.Prelude.{◌≡◌, ℕ};
ghost use Rattle.stores.specs.Making.{Made};
ghost use Rattle.stores.specs.Mixed.{single_stores, pair_stores, eight_stores, table_state, journal_state, fresh_table, fresh_journal, fresh_stores};

use crate::joins::Join;
use crate::journals::JournalStore;
use crate::rows::One;
use crate::tables::TableStore;
use crate::traits::MakeError;
use std::alloc::Global;

pub type Single = One<TableStore>;

pub type Pair = Join<One<TableStore>, One<JournalStore>>;

pub type Four = Join<Pair, Pair>;

pub type Eight = Join<Four, Four>;

// Three names for one function, each with the stores in its contract that its row has.
pub fn single_row(heap: Global, objects: usize) -> Result<Single, MakeError>
    ensures { Made objects result (λ row. single_stores row ≡ fresh_stores 1 objects) }
{
    Single::fresh(heap, objects)
}

pub fn pair_row(heap: Global, objects: usize) -> Result<Pair, MakeError>
    ensures { Made objects result (λ row. pair_stores row ≡ fresh_stores 2 objects) }
{
    Pair::fresh(heap, objects)
}

pub fn eight_row(heap: Global, objects: usize) -> Result<Eight, MakeError>
    ensures { Made objects result (λ row. eight_stores row ≡ fresh_stores 8 objects) }
{
    Eight::fresh(heap, objects)
}

// What is made by its type alone: a store of zeros, or a row of such stores.
trait Fresh: Drop {
    ghost IsFresh: { Self → ℕ → Type 0 };

    fn fresh(heap: Global, objects: usize) -> Result<Self, MakeError>
        ensures { Made objects result (λ made. IsFresh made objects) };
}

impl Fresh for TableStore {
    ghost IsFresh = { λ store objects. table_state store ≡ fresh_table objects };

    fn fresh(heap: Global, objects: usize) -> Result<TableStore, MakeError> {
        TableStore::zeros(heap, objects)
    }
}

impl Fresh for JournalStore {
    ghost IsFresh = { λ store objects. journal_state store ≡ fresh_journal objects };

    fn fresh(heap: Global, objects: usize) -> Result<JournalStore, MakeError> {
        JournalStore::zeros(heap, objects)
    }
}

impl<S: Fresh> Fresh for One<S> {
    ghost IsFresh = { λ row. S.IsFresh row.store };

    fn fresh(heap: Global, objects: usize) -> Result<One<S>, MakeError> {
        let store = S::fresh(heap, objects)?;
        Ok(One { store })
    }
}

impl<A: Fresh, B: Fresh> Fresh for Join<A, B> {
    ghost IsFresh = { λ row objects. A.IsFresh row.first objects × B.IsFresh row.second objects };

    fn fresh(heap: Global, objects: usize) -> Result<Join<A, B>, MakeError> {
        let first = A::fresh(heap, objects)?;
        let second = B::fresh(heap, objects)?;
        Ok(Join { first, second })
    }
}
