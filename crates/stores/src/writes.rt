// Writes that are never lost: a store that has no room is tidied first, and a tidy always makes room.
ghost use Rattle.std.specs.Prelude.{◌≡◌, true, slice_set};
ghost use Rattle.stores.specs.Rows.{RoomChange, WriteChange, has_place, store_at, ChangesOnlyAt};

use crate::rows::Row;

// Writes a value into the store at a place; a place that the row has not is left alone.
#[tactic(auto, using(crate::proofs::Written::with_twice, crate::proofs::Written::write_replaces))]
pub fn write<R: Row>(row: &mut R, place: u8, object: usize, value: u32)
    ensures others { ChangesOnlyAt (R.Row.stores row.old) place (R.Row.stores row.new) }
    ensures change { has_place (R.Row.stores row.old) place ≡ true → WriteChange (store_at (R.Row.stores row.old) place) object value (store_at (R.Row.stores row.new) place) }
    ensures values { has_place (R.Row.stores row.old) place ≡ true → (store_at (R.Row.stores row.new) place).values ≡ slice_set (store_at (R.Row.stores row.old) place).values object value }
{
    if place >= row.count() {
        return;
    }
    make_room(row, place);
    let _ = row.put(place, object, value);
}

#[tactic(auto, using(crate::proofs::Written::with_same))]
fn make_room<R: Row>(row: &mut R, place: u8)
    requires { has_place (R.Row.stores row.old) place ≡ true }
    ensures others { ChangesOnlyAt (R.Row.stores row.old) place (R.Row.stores row.new) }
    ensures change { RoomChange (store_at (R.Row.stores row.old) place) (store_at (R.Row.stores row.new) place) }
{
    if row.remaining(place) == Some(0) {
        row.tidy(place);
    }
}
