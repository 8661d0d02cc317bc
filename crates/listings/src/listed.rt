// The listing of a run file, from its bytes: run over fresh stores, tables and journals by turns.
ghost use Rattle.std.specs.Prelude.{◌≡◌, [], IfOk, Some, Ok, Err, string_bytes};
ghost use Rattle.runfile.specs.HeaderFormat.{header_of};
ghost use Rattle.runfile.specs.declared.faults.RunFault.TheVariants.{Header as HeaderBroken};
ghost use Rattle.runs.specs.Fitting.{fitting_header};
ghost use Rattle.listings.specs.Listed.{Listed, ListedFile};
ghost use Rattle.listings.specs.Text.{listing_text};

use crate::text::listing_text;
use runfile::{Header, HeaderFault, HeaderFaultKind, RunFault, read_header};
use runs::run;
use std::alloc::{AllocError, Global};
use stores::mixed::{eight_row, pair_row, single_row};
use stores::{MakeError, Row};

// The whole listing. It can fail only for want of memory.
pub fn list_file(heap: Global, file: &[u8]) -> Result<String, MakeError>
    ensures { IfOk result (λ text. ListedFile file.now (string_bytes text)) }
{
    match read_header(file) {
        Ok(header) => list_sound(heap, file, header),
        Err(fault) => list_unsound(heap, file, fault),
    }
}

// The heap and the file stay two arguments here: a handle and an input, which are nothing more as one.

// A file with a sound header is run over the row that it is for, where there is one.
fn list_sound(heap: Global, file: &[u8], header: Header) -> Result<String, MakeError>
    requires { Ok header ≡ header_of file.now }
    ensures { IfOk result (λ text. ListedFile file.now (string_bytes text)) }
{
    let objects = header.objects as usize;
    // A match: each count has a row of a type of its own.
    match header.machines {
        1 => list_over(heap, file, single_row(heap, objects)?),
        2 => list_over(heap, file, pair_row(heap, objects)?),
        8 => list_over(heap, file, eight_row(heap, objects)?),
        _ => list_nothing(heap, HeaderFaultKind::RowDiffers.at(0)),
    }
}

// Apart from `list_file`, so that its proof does not stand at a public function.
fn list_unsound(heap: Global, file: &[u8], fault: HeaderFault) -> Result<String, MakeError>
    requires { Err fault ≡ header_of file.now }
    ensures { IfOk result (λ text. ListedFile file.now (string_bytes text)) }
{
    list_nothing(heap, fault)
}

fn list_over<R: Row + Drop>(heap: Global, file: &[u8], row: R) -> Result<String, MakeError>
    ensures { IfOk result (λ text. Listed (R.Row.stores row) file.now (string_bytes text)) }
{
    let Ok(finished) = run(heap, file, row) else {
        return Err(MakeError::OutOfMemory);
    };
    Ok(listing_text(heap, finished.outcomes.as_slice(), finished.fault)?)
}

// No step was run.
fn list_nothing(heap: Global, fault: HeaderFault) -> Result<String, MakeError>
    ensures { IfOk result (λ text. string_bytes text ≡ listing_text [] (Some (HeaderBroken fault))) }
{
    Ok(listing_text(heap, &[], Some(RunFault::Header(fault)))?)
}
