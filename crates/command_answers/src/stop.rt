ghost use Rattle.std.specs.Prelude.{◌≡◌};

use base::NoMemory;
use std::alloc::AllocFailed;

/// Why a command ends before it has its text.
#[derive(Drop)]
pub enum Stop<'a> {
    /// A file is refused: its name, the place in it or 0, and the cause.
    Refused {
        name: &'a str,
        place: u64,
        cause: &'static str,
    },
    /// A read failed: the disk's count of faults rose.
    ReadFault,
    /// Out of memory.
    NoMemory,
}

impl<'a> From<NoMemory> for Stop<'a> {
    ghost use Rattle.command_answers.specs.declared.stop.Stop.TheVariants.{NoMemory};

    ghost from_gives = { λ _ stop. stop ≡ NoMemory };

    fn from(_error: NoMemory) -> Self {
        Stop::NoMemory
    }
}

impl<'a, T: Drop> From<AllocFailed<T>> for Stop<'a> {
    ghost use Rattle.command_answers.specs.declared.stop.Stop.TheVariants.{NoMemory};

    ghost from_gives = { λ _ stop. stop ≡ NoMemory };

    fn from(_error: AllocFailed<T>) -> Self {
        Stop::NoMemory
    }
}
