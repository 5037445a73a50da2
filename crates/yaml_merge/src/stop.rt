use crate::fault::MergeFault;
use base::NoMemory;

/// Why the resolving of a list stops before its end.
#[derive(Drop)]
pub enum Stop {
    /// At the first fault.
    Fault(MergeFault),
    /// At an `Inherits` whose parent is to be resolved first: its place among the top-level nodes.
    Parent(usize),
}

impl From<MergeFault> for Stop {
    ghost use Rattle.std.specs.Prelude.{◌≡◌};
    ghost use Rattle.yaml_merge.specs.declared.stop.Stop.TheVariants.{Fault};

    ghost from_gives = { λ fault stop. stop ≡ Fault fault };

    fn from(fault: MergeFault) -> Self {
        Stop::Fault(fault)
    }
}

impl From<NoMemory> for Stop {
    ghost use Rattle.std.specs.Prelude.{◌≡◌};
    ghost use Rattle.yaml_merge.specs.declared.fault.MergeFault.TheVariants.{NoMemory};
    ghost use Rattle.yaml_merge.specs.declared.stop.Stop.TheVariants.{Fault};

    ghost from_gives = { λ _ stop. stop ≡ Fault NoMemory };

    fn from(_error: NoMemory) -> Self {
        Stop::Fault(MergeFault::NoMemory)
    }
}
