// Transfer orders: an amount moves from a giver to a taker, as far as the giver has it and the taker can hold it.
ghost use Rattle.orders.specs.Transfers.{transfer_lawful, transfer_mask, transfer_news};
ghost use Rattle.orders.specs.TransferLaws.{transfer_laws};

use crate::movement::Movement;
use crate::rulebook::Rulebook;

#[derive(Clone, Copy)]
pub struct Transfer;

impl Rulebook for Transfer {
    ghost lawful = { transfer_lawful };

    ghost mask = { transfer_mask };

    ghost news = { transfer_news };

    ghost kept = { transfer_laws };

    fn is_lawful(&self, order: &[u8], count: usize) -> bool {
        Movement::read(order).is_some_and(|movement| movement.is_lawful(count))
    }

    fn writes(&self, order: &[u8], count: usize, position: usize) -> bool {
        Movement::read(order).is_some_and(|movement| movement.writes(position)) && position < count
    }

    fn new_value(&self, order: &[u8], olds: &[u32], position: usize) -> u32 {
        let found = Movement::read(order);
        let Some(&old) = olds.get(position) else {
            return 0;
        };
        found.map_or(old, |movement| movement.value_after(olds, position))
    }
}
