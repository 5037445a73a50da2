ghost use Rattle.std.specs.Prelude.{◌≡◌, ◌<◌, ◌^◌, ℕ, Ok};
ghost use Rattle.game_model.specs.declared.world.World.{World};
ghost use Rattle.game_model.specs.Setup.{Setup};
ghost use Rattle.game_model.specs.ValidWorld.{IsSavedWorld};
ghost use Rattle.sync_hash.specs.FitsFields.{FitsFields};
ghost use Rattle.game_save.specs.ReadSave.{read_save_of};
ghost use Rattle.game_save.specs.SaveBytes.{save_bytes};

/// A law of saves: reading the save of a valid world gives that world and its frames. Worlds that
/// code holds fit their fields (`sync_hash::world_fits`). The call does nothing.
#[tactic(auto, using(crate::proofs::WorldAgainLemmas::save_again))]
pub fn a_save_is_read_back()
    ensures { (here frames : ℕ) (setup : Setup) (w : World) → here < 2 ^ 64 →
        IsSavedWorld setup frames w → FitsFields w →
        read_save_of here setup (save_bytes here frames w)
        ≡ Ok (record { frames = frames; world = w }) }
{}

/// A law of saves: two valid worlds of one setup that have the same save are the same
/// world after the same frames.
/// The call does nothing.
pub fn a_save_tells_the_world()
    ensures { (number frames others : ℕ) (setup : Setup) (w v : World) → number < 2 ^ 64 →
        IsSavedWorld setup frames w → FitsFields w → IsSavedWorld setup others v → FitsFields v →
        save_bytes number frames w ≡ save_bytes number others v →
        (frames ≡ others) × (w ≡ v) }
{}
