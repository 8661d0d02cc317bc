// Journal entries: each says that an object took a value, and the newest entry for an object counts.
ghost use Rattle.std.specs.Prelude.{◌≡◌};
ghost use Rattle.stores.specs.Entries.{written, newest};

#[derive(Clone, Copy)]
pub struct Entry {
    pub object: usize,
    pub value: u32,
}

// The value of the newest entry for `object`, if there is one. The newest entry stands last.
pub(crate) fn newest_value(entries: &[Entry], object: usize) -> Option<u32>
    ensures { result ≡ newest entries.now object }
{
    entries
        .iter()
        .rev()
        .find(|entry| entry.object == object)
        .map(|entry| entry.value)
}

// Writes each entry's value into the table, oldest first; past the table's end there is nothing to write.
// A `Vec` and no slice: what a slice ends as after its `get_mut`, no contract says.
#[tactic(auto, using(crate::proofs::Journal::written_next, std::proofs::lemmas::List::set_past))]
pub(crate) fn write_into(entries: &[Entry], table: &mut Vec<u32>)
    ensures { table.new.items ≡ written entries.now table.old.items }
{
    for entry in entries {
        if let Some(value) = table.get_mut(entry.object) {
            *value = entry.value;
        }
    }
}
