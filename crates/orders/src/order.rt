// The bytes of an order that the register keeps: at most 24.
ghost use Rattle.std.specs.Prelude.{◌≡◌, ◌<◌, length, MatchOption};

use crate::fixed::FixedVec;

#[derive(Clone, Copy)]
pub struct Order {
    bytes: FixedVec<u8, 24>,
}

impl Order {
    ghost use Rattle.orders.specs.Kept.{order_bytes};

    // The order, unless it is longer than any that is lawful.
    pub fn keep(bytes: &[u8]) -> Option<Order>
        ensures { MatchOption result (24 < length bytes.now) (λ o. order_bytes o ≡ bytes.now) }
    {
        FixedVec::from_slice(bytes).map(|bytes| Order { bytes })
    }

    pub fn as_slice(&self) -> &[u8]
        ensures { result.now ≡ order_bytes self.now }
    {
        self.bytes.as_slice()
    }
}
