ghost use Rattle.std.specs.Prelude.{◌≡◌, ◌≤◌, ℕ, List, Ok, length};
ghost use Rattle.game_model.specs.Setup.{Setup};
ghost use Rattle.game_save.specs.declared.saved.Saved.{Saved};
ghost use Rattle.game_save.specs.ReadSave.{read_save_of};
ghost use Rattle.game_save.specs.SaveBytes.{save_bytes};
ghost use Rattle.wire_bytes.specs.Field.{AreBytes};

/// A law of saves: bytes that are read as a save are the spelling of the world and the frames that
/// were read. The call does nothing.
#[tactic(auto, using(crate::proofs::SpelledWorldLemmas::save_spelled))]
pub fn what_is_read_is_spelled_so()
    ensures { (here : ℕ) (setup : Setup) (bytes : List ℕ) (saved : Saved) → AreBytes bytes →
        read_save_of here setup bytes ≡ Ok saved →
        bytes ≡ save_bytes here saved.frames saved.world }
{}
