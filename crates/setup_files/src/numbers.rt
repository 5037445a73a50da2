ghost use Rattle.std.specs.Prelude.{◌≡◌, IfOk};
ghost use Rattle.setup_files.specs.Reading.{rules_number};

use base::NoMemory;
use std::alloc::Global;
use sync_hash::fnv;

/// The number of the rules and the map of a match: the FNV-1a of the printed resolved rules, a zero
/// byte, and the printed resolved map. Without rules, or without a map, its part is empty. Out of
/// memory is the only error.
#[tactic(auto, unfolding(crate::specs::Reading::rules_number))]
pub fn rules_number(alloc: Global, rules: &[u8], map: &[u8]) -> Result<u64, NoMemory>
    ensures { IfOk result (λ number. number ≡ rules_number rules.now map.now) }
{
    let mut bytes = rules.to_vec(alloc)?;
    bytes.push(0)?;
    bytes.extend_from_slice(map)?;
    Ok(fnv(&bytes))
}
