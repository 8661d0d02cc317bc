// Why a list of object numbers is refused.
ghost use Rattle.std.specs.Prelude.{◌≡◌};
ghost use Rattle.orders.specs.Lists.{list_fault_number};

// In the order in which they are looked for.
#[derive(Clone, Copy, PartialEq, Eq, Debug)]
pub enum ListFault {
    // the list is empty or longer than 8
    Length,
    // an object number is not below the object count
    Object,
    // the list is not strictly ascending
    Order,
}

impl ListFault {
    // The answer number that stands for this fault. The numbers are the protocol's, and stand in this one place.
    pub fn number(self) -> u8
        ensures { result ≡ list_fault_number self }
    {
        match self {
            ListFault::Length => 2,
            ListFault::Object => 3,
            ListFault::Order => 4,
        }
    }
}
