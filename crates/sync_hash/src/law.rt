ghost use Rattle.std.specs.Prelude.{◌≡◌, ◌≤◌, length};
ghost use Rattle.game_model.specs.declared.limits.TheConstants.{MAX_ACTORS};
ghost use Rattle.game_model.specs.declared.world.World.{World};
ghost use Rattle.game_model.specs.World.{HasClients, head_of};
ghost use Rattle.std.specs.List.Sorted.{IsPermutation};
ghost use Rattle.sync_hash.specs.AnyOrder.{AreComparable, IsNoActorOf, header_of};
ghost use Rattle.sync_hash.specs.FitsFields.{FitsFields};
ghost use Rattle.sync_hash.specs.HashedBytes.{parts_after_header, parts_of};
ghost use Rattle.sync_hash.specs.Kept.{Kept, IsKeptOf, hash_with};
ghost use Rattle.sync_hash.specs.WorldHash.{hash_of};

/// A law of the hashed bytes: for worlds of one size they determine the whole world. Two worlds
/// that differ in any field have different byte lists.
#[tactic(auto, using(crate::proofs::FitsFieldsLemmas::same_worlds))]
pub fn bytes_tell_the_world()
    ensures { (w v : World) → FitsFields w → FitsFields v → w.ore.width ≡ v.ore.width →
        w.ore.height ≡ v.ore.height → parts_of w ≡ parts_of v → w ≡ v }
{}

/// A law of the hashed bytes: they determine the world in any order, since a hash, as a sum,
/// doesn't tell in which order its parts stand. So it is where two worlds have the same header, and
/// the same other parts in any order; and where all their parts are the same in any order, if
/// neither header has the bytes of an actor of the other world.
pub fn parts_tell_the_world_in_any_order()
    ensures after_header { (w v : World) → AreComparable w v → header_of w ≡ header_of v →
        IsPermutation (parts_after_header w) (parts_after_header v) → w ≡ v }
    ensures any_order { (w v : World) → AreComparable w v → IsNoActorOf (header_of w) v →
        IsNoActorOf (header_of v) w → IsPermutation (parts_of w) (parts_of v) → w ≡ v }
{}

/// A law of hashers: one that keeps the numbers of a world's actors and cells gives the hash of
/// that world, asked with its head.
#[tactic(auto, using(crate::proofs::KeptLemmas::kept_hash))]
pub fn kept_numbers_give_the_hash()
    ensures { (kept : Kept) (w : World) → IsKeptOf kept w.actors w.ore →
        hash_with kept (head_of w) ≡ hash_of w }
{}
