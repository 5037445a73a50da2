ghost use Rattle.std.specs.Prelude.{◌≡◌, true, false, drop, MatchOption, IfOk, IfErr, Ok, Err};
ghost use Rattle.std.specs.Str.{bytes_eq};
ghost use Rattle.base.specs.Steps.{IsFault};
ghost use Rattle.yaml_lines.specs.Trees.{trees_of};
ghost use Rattle.yaml_merge.specs.declared.fault.MergeFault.TheVariants.{NoMemory};
ghost use Rattle.yaml_merge.specs.Merging.{without};
ghost use Rattle.yaml_merge.specs.Resolving.{inherits, removes, in_path, within, inherited};
ghost use Rattle.yaml_merge.specs.Resolving.{removed};

use crate::fault::MergeFault;
use crate::growing_list::GrowingList;
use crate::hashers::Hashers;
use crate::merging::merge;
use crate::resolved::Resolved;
use crate::sizes::has_levels;
use std::alloc::Global;
use yaml_lines::{Place, Text};

/// Whether two texts are the same.
pub fn same(one: &[u8], other: &[u8]) -> bool
    ensures { result ≡ bytes_eq one.now other.now }
{
    one == other
}

/// The key is `Inherits`, or begins with `Inherits@`.
#[tactic(auto, unfolding(crate::specs::Resolving::inherits))]
pub fn inherits(key: &[u8]) -> bool
    ensures { result ≡ inherits key.now }
{
    same(key, b"Inherits") || same(&key[..key.len().min(9)], b"Inherits@")
}

/// The key is a removal.
pub fn removes(key: &[u8]) -> bool
    ensures { result ≡ removes key.now }
{
    match key {
        [first, ..] => *first == b'-',
        [] => false,
    }
}

/// The key that a removal removes.
pub fn removal(key: &str) -> Option<&str>
    ensures { MatchOption result (removes key.now ≡ false) (λ removed. (removes key.now ≡ true)
        × (removed.now ≡ drop 1 key.now)) }
{
    key.strip_prefix('-')
}

/// Whether a name stands in the path.
pub fn in_path(name: &[u8], path: &[Text]) -> bool
    ensures { result ≡ in_path name.now path.now }
{
    for first in path {
        if same(first.as_str().as_bytes(), name) {
            return true;
        }
    }
    false
}

/// The list, where it isn't too large.
#[tactic(auto, using(crate::proofs::StepSteps::within_steps))]
pub fn within(limit: usize, place: Place, list: GrowingList) -> Result<GrowingList, MergeFault>
    ensures kept { IfOk result (λ level. within limit place list ≡ Ok level) }
    ensures fault { IfErr result (λ fault. within limit place list ≡ Err fault) }
{
    if list.total() > limit {
        return Err(MergeFault::TooLarge { place });
    }
    Ok(list)
}

/// The list without the node of a key, which may be the end of a removal's key.
pub fn remove(
    alloc: Global,
    removal: &Text,
    key: &str,
    place: Place,
    list: GrowingList,
) -> Result<GrowingList, MergeFault>
    ensures left { IfOk result (λ level. removed place (without key.now list) ≡ Ok level) }
    ensures fault { IfErr result (λ fault. IsFault NoMemory fault
        (removed place (without key.now list))) }
{
    let key = removal.ending(alloc, key)?;
    let mut list = list;
    if list.remove(alloc, &key) {
        Ok(list)
    } else {
        Err(MergeFault::NothingToRemove { place })
    }
}

/// The resolved children of a parent merged into a list.
#[tactic(auto, using(crate::proofs::StepSteps::within_steps))]
pub fn inherit(
    alloc: Global,
    hashers: &Hashers,
    room: usize,
    place: Place,
    list: GrowingList,
    parent: &Resolved,
) -> Result<GrowingList, MergeFault>
    ensures taken { IfOk result (λ level. inherited room place list (trees_of parent.now.children)
        ≡ Ok level) }
    ensures fault { IfErr result (λ fault. IsFault NoMemory fault
        (inherited room place list (trees_of parent.now.children))) }
{
    if !has_levels(&parent.children, room) {
        return Err(MergeFault::TooDeep { place });
    }
    Ok(merge(alloc, hashers, &parent.children, list)?)
}
