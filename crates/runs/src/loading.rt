// Loading: the opening values of a run file go into every store.
ghost use Rattle.std.specs.Prelude.{◌≡◌, ◌<◌, true, length};
ghost use Rattle.stores.specs.Rows.{has_place, place_count, store_at, ChangesOnlyAt};
ghost use Rattle.runfile.specs.HeaderFormat.{opening_values};
ghost use Rattle.runs.specs.Loading.{FilledTo, Loaded};

use crate::sound::SoundFile;
use runfile::opening_value;
use stores::{Row, write};

impl SoundFile<'_> {
    // Fills every store of a row that is short enough to say its length.
    pub(crate) fn load<R: Row>(&self, row: &mut R)
        requires { place_count (R.Row.stores row.old) < 255 }
        ensures { Loaded (R.Row.stores row.old) (opening_values self.now.bytes.now) (R.Row.stores row.new) }
    {
        // By number: a row lends no store, and is written through its own methods alone.
        let machines = row.count();
        for machine in 0..machines {
            self.load_store(row, machine);
        }
    }

    // By number: an object is no item of a list, but the number that its value is read and written at.
    fn load_store<R: Row>(&self, row: &mut R, machine: u8)
        requires { has_place (R.Row.stores row.old) machine ≡ true }
        ensures others { ChangesOnlyAt (R.Row.stores row.old) machine (R.Row.stores row.new) }
        ensures filled { FilledTo (opening_values self.now.bytes.now) self.now.header.objects (store_at (R.Row.stores row.old) machine) (store_at (R.Row.stores row.new) machine) }
    {
        for object in 0..self.header.objects as usize {
            write(row, machine, object, opening_value(self.bytes, object));
        }
    }
}
