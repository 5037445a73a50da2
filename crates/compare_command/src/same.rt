//! Whether two values are the same.
ghost use Rattle.std.specs.Prelude.{◌≡◌};
ghost use Rattle.std.specs.Option.{option_copied};
ghost use Rattle.compare_command.specs.Difference.{are_same, is_build, same_build, same_builds};
ghost use Rattle.compare_command.specs.Difference.{same_leg, values_of};

use crate::items::item_of;
use crate::values::Values;
use game_model::{Build, Leg};

/// Whether two values are the same.
#[tactic(auto, unfolding(crate::specs::Difference::are_same))]
pub(crate) fn are_same(values: Values<'_>) -> bool
    ensures { result ≡ are_same (values_of values.entry) }
{
    match values {
        Values::Numbers(a, b) => a == b,
        Values::Flags(a, b) => a == b,
        Values::Cells(a, b) => a == b,
        Values::Legs(a, b) => same_leg(a, b),
        Values::Acts(a, b) => a == b,
        Values::Builds(a, b) => same_builds(a, b),
        Values::Entries(a, b) => a == b,
        Values::Hashes(a, b) => a == b,
    }
}

/// Whether two are one leg, or both none.
fn same_leg(a: Option<Leg>, b: Option<Leg>) -> bool
    ensures { result ≡ same_leg a b }
{
    match (a, b) {
        (Some(a), Some(b)) => a.dir == b.dir && a.progress == b.progress,
        (None, None) => true,
        (Some(_), None) | (None, Some(_)) => false,
    }
}

/// Whether two lists have the same builds.
#[tactic(auto, using(crate::proofs::SameLemmas::same_steps))]
fn same_builds(builds: &[Build], others: &[Build]) -> bool
    ensures { result ≡ same_builds builds.now others.now }
{
    if builds.len() != others.len() {
        return false;
    }
    for (i, build) in builds.iter().enumerate() {
        if !is_build(build, item_of(others, i)) {
            return false;
        }
    }
    true
}

/// Whether the second is there and is the same build.
fn is_build(build: &Build, other: Option<&Build>) -> bool
    ensures { result ≡ is_build build.now (option_copied other.entry) }
{
    match other {
        Some(other) => same_build(build, other),
        None => false,
    }
}

/// Whether two are one build.
fn same_build(a: &Build, b: &Build) -> bool
    ensures { result ≡ same_build a.now b.now }
{
    a.kind == b.kind && a.left == b.left
}
