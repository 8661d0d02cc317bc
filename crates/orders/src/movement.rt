// What a transfer order asks for, and what it makes of a position.
ghost use Rattle.std.specs.Prelude.{◌≡◌, Some};
ghost use Rattle.orders.specs.Transfers.{MovementSettles, moved, movement_lawful, movement_writes, value_moved};

use crate::values::value_at;

#[derive(Clone, Copy)]
pub(crate) struct Movement {
    giver: u8,
    taker: u8,
    amount: u32,
}

impl Movement {
    // The movement that the order asks for, if it has the length: it settles whether the order is lawful, which positions are
    // written, and the new values.
    pub(crate) fn read(order: &[u8]) -> Option<Movement>
        ensures { MovementSettles order.now result }
    {
        let &[giver, taker, a, b, c, d] = order.as_array::<6>()?;
        Some(Movement {
            giver,
            taker,
            amount: u32::from_le_bytes([a, b, c, d]),
        })
    }

    pub(crate) fn is_lawful(self, count: usize) -> bool
        ensures { result ≡ movement_lawful count (Some self) }
    {
        let giver = usize::from(self.giver);
        let taker = usize::from(self.taker);
        giver < count && taker < count && giver != taker
    }

    pub(crate) fn writes(self, position: usize) -> bool
        ensures { result ≡ movement_writes position (Some self) }
    {
        position == usize::from(self.giver) || position == usize::from(self.taker)
    }

    // No more than is asked for, than the giver has, and than the taker can hold.
    fn moved(self, olds: &[u32]) -> u32
        ensures { result ≡ moved olds.now self }
    {
        let held = value_at(olds, usize::from(self.giver));
        let room = u32::MAX - value_at(olds, usize::from(self.taker));
        self.amount.min(held).min(room)
    }

    pub(crate) fn value_after(self, olds: &[u32], position: usize) -> u32
        ensures { result ≡ value_moved olds.now position (Some self) }
    {
        let old = value_at(olds, position);
        if position == usize::from(self.giver) {
            old - self.moved(olds)
        } else if position == usize::from(self.taker) {
            old + self.moved(olds)
        } else {
            old
        }
    }
}
