// A store that is a plain table of values. Writing takes no room, so its room never changes.
ghost use Rattle.std.specs.Prelude.{◌≡◌, replicate};
ghost use Rattle.stores.specs.Making.{Made};
ghost use Rattle.stores.specs.Tables.{table_values, table_room};
ghost use Rattle.std.proofs.Common.{rules};

use crate::making::zeros;
use crate::traits::{MakeError, PutRefusal, Store};
use std::alloc::Global;
use std::marker::Model;

#[derive(Drop)]
pub struct TableStore {
    values: Vec<u32>,
}

// To a caller the store is its values.
impl Model for TableStore {
    ghost use Rattle.std.specs.Prelude.{ℕ, List};

    ghost Value = { List ℕ };

    ghost view = { λ s. s.values.items };
}

impl TableStore {
    // A table of `count` objects, each with the value 0.
    pub fn zeros(heap: Global, count: usize) -> Result<TableStore, MakeError>
        ensures { Made count result (λ s. table_values s ≡ replicate count 0) }
    {
        let values = zeros(heap, count)?;
        Ok(TableStore { values })
    }
}

impl Store for TableStore {
    const FLOOR: u32 = 1024;

    ghost values = { table_values };

    ghost room = { table_room };

    ghost FLOOR = { 1024 };

    ghost floor_is_ample = { Prim.search rules };

    fn object_count(&self) -> usize {
        self.values.len()
    }

    fn value(&self, object: usize) -> Option<u32> {
        self.values.get(object).copied()
    }

    fn remaining(&self) -> u32 {
        Self::FLOOR
    }

    fn put(&mut self, object: usize, value: u32) -> Result<(), PutRefusal> {
        let slot = self.values.get_mut(object).ok_or(PutRefusal::NoSuchObject)?;
        *slot = value;
        Ok(())
    }

    fn tidy(&mut self) {}
}
