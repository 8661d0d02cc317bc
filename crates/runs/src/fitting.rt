// Whether a row of stores is the one that a run file is for.
ghost use Rattle.std.specs.Prelude.{◌≡◌};
ghost use Rattle.stores.specs.Rows.{place_count};
ghost use Rattle.model.specs.Checks.{all_to};
ghost use Rattle.runs.specs.Fitting.{has_objects, fitting_header};

use runfile::{Header, HeaderFault, HeaderFaultKind, read_header};
use stores::Row;

// The header of a file that the row fits, or the first fault.
pub fn read_fitting_header<R: Row>(file: &[u8], row: &R) -> Result<Header, HeaderFault>
    ensures { result ≡ fitting_header (R.Row.stores row.now) file.now }
{
    let header = read_header(file)?;
    if row.count() != header.machines {
        return Err(HeaderFaultKind::RowDiffers.at(0));
    }
    if !all_have_objects(row, header.objects as usize) {
        return Err(HeaderFaultKind::RowDiffers.at(4));
    }
    Ok(header)
}

// Whether each machine of the row has this many objects. The line stands in `register` too, which asks it of its opening.
fn all_have_objects<R: Row>(row: &R, objects: usize) -> bool
    ensures { result ≡ all_to (place_count (R.Row.stores row.now)) (has_objects (R.Row.stores row.now) objects) }
{
    (0..row.count()).all(|machine| row.object_count(machine).unwrap_or(0) == objects)
}
