ghost use Rattle.std.specs.Prelude.{◌≡◌};
ghost use Rattle.compare_command.specs.Difference.{Numbers, values_of};

use activities::Activity;
use game_model::{Build, Leg};
use game_orders::Entry;
use world_units::CPos;

/// Two values of one kind: that of the first file, then that of the second.
#[derive(Clone, Copy)]
pub(crate) enum Values<'a> {
    /// Two numbers.
    Numbers(u64, u64),
    /// Two flags, printed as 1 and 0.
    Flags(bool, bool),
    /// Two cells.
    Cells(CPos, CPos),
    /// Two legs, or none.
    Legs(Option<Leg>, Option<Leg>),
    /// What two actors are to do.
    Acts(&'a [Activity], &'a [Activity]),
    /// What two actors are to build.
    Builds(&'a [Build], &'a [Build]),
    /// Two entries of a client.
    Entries(&'a Entry, &'a Entry),
    /// Two hashes.
    Hashes(u64, u64),
}

/// Two numbers.
pub(crate) fn numbers(a: u32, b: u32) -> Values<'static>
    ensures { values_of result ≡ Numbers a b }
{
    Values::Numbers(u64::from(a), u64::from(b))
}

/// Two numbers of at most 16 bits.
pub(crate) fn mid_numbers(a: u16, b: u16) -> Values<'static>
    ensures { values_of result ≡ Numbers a b }
{
    Values::Numbers(u64::from(a), u64::from(b))
}

/// Two numbers of at most 8 bits.
pub(crate) fn small_numbers(a: u8, b: u8) -> Values<'static>
    ensures { values_of result ≡ Numbers a b }
{
    Values::Numbers(u64::from(a), u64::from(b))
}
