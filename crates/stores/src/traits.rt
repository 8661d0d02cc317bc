// What a replica store is: its values, one for each object, and its room, the number of writes that it can still take.
ghost use Rattle.std.specs.Prelude.{◌≡◌, ℕ, ◌+◌, ◌≤◌, max, true, false, List, length, is_ok};
ghost use Rattle.stores.specs.declared.traits.MakeError.TheVariants.{OutOfMemory};
ghost use Rattle.stores.specs.Meaning.{value_at, put_answer, values_after_put};

use std::alloc::AllocError;

// Why a store refuses a write, the first reason first.
#[derive(Clone, Copy, PartialEq, Eq, Debug)]
pub enum PutRefusal {
    // the object number is not below the object count
    NoSuchObject,
    // the room is 0
    NoRoom,
}

// Why a store could not be made.
#[derive(Clone, Copy, PartialEq, Eq, Debug)]
pub enum MakeError {
    // a store has at most 256 objects
    TooManyObjects,
    OutOfMemory,
}

impl From<AllocError> for MakeError {
    ghost from_gives = { λ _ r. r ≡ OutOfMemory };

    fn from(_error: AllocError) -> MakeError {
        MakeError::OutOfMemory
    }
}

pub trait Store {
    // The room that a tidy restores at the least.
    const FLOOR: u32;

    ghost values: { Self → List ℕ };

    ghost room: { Self → ℕ };

    ghost FLOOR: { ℕ };

    // The floor that this kind of store states.
    fn stated_floor() -> u32
        ensures { result ≡ FLOOR }
    {
        Self::FLOOR
    }

    fn object_count(&self) -> usize
        ensures { result ≡ length (values self.now) };

    fn value(&self, object: usize) -> Option<u32>
        ensures { result ≡ value_at (values self.now) object };

    // The number of writes that the store can still take.
    fn remaining(&self) -> u32
        ensures { result ≡ room self.now };

    fn put(&mut self, object: usize, value: u32) -> Result<(), PutRefusal>
        ensures answer { result ≡ put_answer (values self.old) (room self.old) object }
        ensures values { values self.new ≡ values_after_put (values self.old) (room self.old) object value }
        ensures refused { is_ok result ≡ false → room self.new ≡ room self.old }
        ensures falls { room self.old ≤ room self.new + 1 };

    fn tidy(&mut self)
        ensures values { values self.new ≡ values self.old }
        ensures room { max (room self.old) FLOOR ≤ room self.new };

    ghost floor_is_ample: { 64 ≤ FLOOR };
}
