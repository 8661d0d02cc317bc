// Why a call is refused, with the number that each reason is answered with.
ghost use Rattle.std.specs.Prelude.{◌≡◌};
ghost use Rattle.orders.specs.declared.faults.ListFault.{ListFault};
ghost use Rattle.register.specs.Refusals.{refusal_number};
ghost use Rattle.register.specs.declared.refusals.Refusal.TheVariants.{List};

use orders::ListFault;

#[derive(Clone, Copy, PartialEq, Eq, Debug)]
pub enum Refusal {
    // the machine number is not below the machine count
    NoSuchMachine,
    // the object list is refused
    List(ListFault),
    // the object number of a question is not below the object count
    NoSuchObject,
    // the answer buffer is shorter than the list
    ShortBuffer,
    // the machine is down
    MachineDown,
    AlreadyDown,
    AlreadyUp,
    // the register's row has not 1 to 8 stores
    MachineCount,
    // the stores' object counts differ or are not 1 to 256
    ObjectCounts,
    // two copies differed when the register was opened
    CopiesDiffer,
}

impl From<ListFault> for Refusal {
    ghost from_gives = { λ fault r. r ≡ List fault };

    fn from(fault: ListFault) -> Refusal {
        Refusal::List(fault)
    }
}

impl Refusal {
    // The answer number that stands for this reason: a match, since a list has the number of its fault.
    pub fn number(self) -> u8
        ensures { result ≡ refusal_number self }
    {
        match self {
            Refusal::NoSuchMachine => 1,
            Refusal::List(fault) => fault.number(),
            Refusal::NoSuchObject => 3,
            Refusal::ShortBuffer => 7,
            Refusal::MachineDown => 17,
            Refusal::AlreadyDown | Refusal::AlreadyUp => 18,
            Refusal::MachineCount => 20,
            Refusal::ObjectCounts => 21,
            Refusal::CopiesDiffer => 22,
        }
    }
}
