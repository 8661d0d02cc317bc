// One transaction in use.
ghost use Rattle.std.specs.Prelude.{◌<◌};

pub mod methods;
pub mod polls;
pub mod turns;

use model::{Standing, Status};
use orders::{ObjectList, Order};

// The coordinator is one of the machines 0 to 7, and there is a status for each of these.
#[derive(Clone, Copy)]
pub struct Transaction {
    standing: Standing,
    coordinator: u8,
    objects: ObjectList,
    order: Order,
    statuses: [Status; 8],
    ghost there: { coordinator < 8 },
}
