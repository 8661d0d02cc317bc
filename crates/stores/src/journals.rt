// A store that appends each write to a journal and folds the journal into its base values when it is tidied.

pub mod methods;

use crate::entries::Entry;
use std::marker::Model;

const MOST_ENTRIES: usize = 512;

// The entries' memory is reserved when the store is made, so that no write can fail for want of it.
#[derive(Drop)]
pub struct JournalStore {
    base: Vec<u32>,
    entries: Vec<Entry>,
}

impl Model for JournalStore {
    ghost use Rattle.std.specs.Prelude.{◌≤◌, vec_len, vec_capacity};
    ghost use Rattle.stores.specs.JournalParts.{JournalParts};
    ghost use Rattle.stores.specs.declared.journals.TheConstants.{MOST_ENTRIES};

    ghost Value = { JournalParts };

    ghost view = { λ s. record { base = s.base.items; entries = s.entries.items } };

    ghost invariant = { λ s. (vec_len s.entries ≤ MOST_ENTRIES) × (MOST_ENTRIES ≤ vec_capacity s.entries) };
}
