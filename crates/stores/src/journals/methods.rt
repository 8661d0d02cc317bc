// What a journal store answers and does.
ghost use Rattle.std.specs.Prelude.{◌≡◌, ◌-◌, ◌≤◌, length, replicate, is_ok, if◌then◌else◌};
ghost use Rattle.stores.specs.Entries.{newest_or_base};
ghost use Rattle.stores.specs.Journals.{journal_values, journal_room};
ghost use Rattle.stores.specs.Making.{Made};
ghost use Rattle.stores.specs.Meaning.{value_at, put_answer, values_after_put};
ghost use Rattle.std.proofs.Common.{rules};

use crate::entries::{Entry, newest_value, write_into};
use crate::journals::{JournalStore, MOST_ENTRIES};
use crate::making::zeros;
use crate::traits::{MakeError, PutRefusal, Store};
use std::alloc::Global;

impl JournalStore {
    // A journal store of `count` objects, each with the value 0, and no entries.
    pub fn zeros(heap: Global, count: usize) -> Result<JournalStore, MakeError>
        ensures { Made count result (λ s. (journal_values s ≡ replicate count 0) × (journal_room s ≡ 512)) }
    {
        let base = zeros(heap, count)?;
        let entries = Vec::with_capacity(heap, MOST_ENTRIES)?;
        Ok(JournalStore { base, entries })
    }
}

impl Store for JournalStore {
    const FLOOR: u32 = MOST_ENTRIES as u32;

    ghost values = { journal_values };

    ghost room = { journal_room };

    ghost FLOOR = { 512 };

    ghost floor_is_ample = { Prim.search rules };

    #[tactic(auto, using(crate::proofs::Journal::length_written))]
    fn object_count(&self) -> usize {
        self.base.len()
    }

    #[tactic(auto, using(crate::proofs::Journal::value_at_written))]
    fn value(&self, object: usize) -> Option<u32>
        ensures value { result ≡ value_at (journal_values self.now) object }
        ensures newest { result ≡ newest_or_base self.now.entries self.now.base object }
    {
        let base = self.base.get(object).copied()?;
        Some(newest_value(&self.entries, object).unwrap_or(base))
    }

    fn remaining(&self) -> u32
        ensures room { result ≡ journal_room self.now }
        ensures few { length self.now.entries ≤ 512 }
    {
        (MOST_ENTRIES - self.entries.len()) as u32
    }

    #[tactic(auto, using(crate::proofs::Journal::written_push))]
    fn put(&mut self, object: usize, value: u32) -> Result<(), PutRefusal>
        ensures answer { result ≡ put_answer (journal_values self.old) (journal_room self.old) object }
        ensures values { journal_values self.new ≡ values_after_put (journal_values self.old) (journal_room self.old) object value }
        ensures room { journal_room self.new ≡ journal_room self.old - (if is_ok result then 1 else 0) }
    {
        if object >= self.object_count() {
            return Err(PutRefusal::NoSuchObject);
        }
        if self.remaining() == 0 {
            return Err(PutRefusal::NoRoom);
        }
        self.entries.push_reserved(Entry { object, value });
        Ok(())
    }

    fn tidy(&mut self)
        ensures values { journal_values self.new ≡ journal_values self.old }
        ensures room { journal_room self.new ≡ 512 }
    {
        write_into(&self.entries, &mut self.base);
        self.entries.clear();
    }
}
