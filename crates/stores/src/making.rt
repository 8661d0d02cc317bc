// The values of a new store.
ghost use Rattle.std.specs.Prelude.{◌≡◌, replicate};
ghost use Rattle.stores.specs.Making.{Made};

use crate::traits::MakeError;
use std::alloc::Global;

const MOST_OBJECTS: usize = 256;

// The value 0 for each of `count` objects. A heap and a count stay two arguments: a handle and a number.
pub(crate) fn zeros(heap: Global, count: usize) -> Result<Vec<u32>, MakeError>
    ensures { Made count result (λ values. values.items ≡ replicate count 0) }
{
    if count > MOST_OBJECTS {
        return Err(MakeError::TooManyObjects);
    }
    Ok(vec![in heap; 0; count]?)
}
