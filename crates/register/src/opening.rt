// Opening a register over a row: it is always made, and refuses every call where the row is not fit for it.
ghost use Rattle.std.specs.Prelude.{◌≡◌, ◌<◌, length, slice_index};
ghost use Rattle.stores.specs.Rows.{place_count, store_at};
ghost use Rattle.model.specs.Checks.{all_to};
ghost use Rattle.model.specs.Opening.{same_counts, same_value, same_values, opening_number, opened};
ghost use Rattle.register.specs.Meaning.{world};
ghost use Rattle.register.specs.Refusals.{answer_number};

use crate::refusals::Refusal;
use crate::registers::Register;
use stores::Row;

impl<R: Row> Register<R> {
    pub fn open(row: R) -> Register<R>
        ensures { world R.Row.stores result ≡ opened (R.Row.stores row) }
    {
        let opened = check_row(&row);
        Register {
            row,
            opened,
            up: [true; 8],
        }
    }
}

// Whether the row is fit for a register, or the first reason why it is not.
fn check_row<R: Row>(row: &R) -> Result<(), Refusal>
    ensures { answer_number result ≡ opening_number (R.Row.stores row.now) }
{
    let machines = row.count();
    if !(1..=8).contains(&machines) {
        return Err(Refusal::MachineCount);
    }
    let objects = row.object_count(0).unwrap_or(0);
    if !(1..=256).contains(&objects) || !counts_agree(row, objects) {
        return Err(Refusal::ObjectCounts);
    }
    if !copies_agree(row, objects) {
        return Err(Refusal::CopiesDiffer);
    }
    Ok(())
}

// Whether each machine has as many objects as the first. The line stands in `runs` too: as one public function it would want
// a name and a contract of its own for the one line.
fn counts_agree<R: Row>(row: &R, objects: usize) -> bool
    requires { objects ≡ length (store_at (R.Row.stores row.now) 0).values }
    ensures { result ≡ all_to (place_count (R.Row.stores row.now)) (same_counts (R.Row.stores row.now)) }
{
    (0..row.count()).all(|machine| row.object_count(machine).unwrap_or(0) == objects)
}

// Whether the copy of each machine is that of the first.
fn copies_agree<R: Row>(row: &R, objects: usize) -> bool
    requires { objects ≡ length (store_at (R.Row.stores row.now) 0).values }
    ensures { result ≡ all_to (place_count (R.Row.stores row.now)) (same_values (R.Row.stores row.now)) }
{
    (0..row.count()).all(|machine| copy_agrees(row, machine, objects))
}

// The row and a machine stay two arguments, as they are in every method of a row.
#[tactic(auto, using(model::proofs::Ranges::all_over_range))]
fn copy_agrees<R: Row>(row: &R, machine: u8, objects: usize) -> bool
    ensures { machine < place_count (R.Row.stores row.now) → result ≡ all_to objects (same_value (R.Row.stores row.now) machine) }
{
    (0..objects).all(|object| value_at(row, machine, object) == value_at(row, 0, object))
}

// The value of an object in the copy of a machine, where the row has that machine.
pub(crate) fn value_at<R: Row>(row: &R, machine: u8, object: usize) -> u32
    ensures { machine < place_count (R.Row.stores row.now) → result ≡ slice_index (store_at (R.Row.stores row.now) machine).values object }
{
    row.value(machine, object).unwrap_or(0)
}
