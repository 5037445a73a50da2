ghost use Rattle.std.specs.Prelude.{◌≡◌};
ghost use Rattle.replay_file.specs.PartReading.{part_fault};
ghost use Rattle.replay_file.specs.declared.part_fault.PartFault.TheVariants as fault;

use game_orders::OrderFault;
use wire_bytes::Short;

/// Why bytes go on with no part.
#[derive(Clone, Copy, Debug, PartialEq, Eq)]
pub enum PartFault {
    /// A field runs past the end of the bytes.
    Short,
    /// A field is bad.
    Bad,
}

impl From<Short> for PartFault {
    ghost from_gives = { λ _ error. error ≡ fault.Short };

    fn from(_error: Short) -> PartFault {
        PartFault::Short
    }
}

impl From<OrderFault> for PartFault {
    ghost from_gives = { λ order error. error ≡ part_fault order };

    fn from(order: OrderFault) -> PartFault {
        match order {
            OrderFault::Short => PartFault::Short,
            OrderFault::BadTag | OrderFault::BadFlag => PartFault::Bad,
        }
    }
}
