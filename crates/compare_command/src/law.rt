ghost use Rattle.std.specs.Prelude.{◌≡◌, []};
ghost use Rattle.std.specs.List.{AllByRecursion};
ghost use Rattle.compare_command.specs.Laws.{AreOfLeastFrame, AreOneMatch, IsTrueOfReplays};
ghost use Rattle.compare_command.specs.Laws.{IsTrueOfSaves};
ghost use Rattle.compare_command.specs.Replays.{entries_differences, replay_differences};
ghost use Rattle.compare_command.specs.Saves.{save_differences};
ghost use Rattle.game_model.specs.Setup.{Setup};
ghost use Rattle.game_model.specs.ValidWorld.{IsSavedWorld};
ghost use Rattle.game_save.specs.declared.saved.Saved.{Saved};
ghost use Rattle.replay_file.specs.declared.replay.Replay.{Replay};
ghost use Rattle.replay_file.specs.ValidReplay.{IsValidReplay};

/// A law of saves: two of one setup have no difference exactly where they are the same world after
/// the same frames. The call does nothing.
pub fn equal_saves_have_no_difference()
    ensures equal { (setup : Setup) (a b : Saved) → IsSavedWorld setup a.frames a.world →
        IsSavedWorld setup b.frames b.world → save_differences a b ≡ [] → a ≡ b }
    ensures none { (setup : Setup) (a b : Saved) → IsSavedWorld setup a.frames a.world →
        a ≡ b → save_differences a b ≡ [] }
{}

/// A law of the lines of two files: each is true of them. What it prints are the values that the
/// two have there, and they are not equal; and an actor that one file alone is said to have is in
/// that one alone. The call does nothing.
pub fn each_line_is_true()
    ensures saves { (a b : Saved) → AllByRecursion (IsTrueOfSaves a b) (save_differences a b) }
    ensures replays { (r s : Replay) →
        AllByRecursion (IsTrueOfReplays r s) (replay_differences r s) }
{}

/// A law of replays: two have no difference exactly where they have the same seed, clients and
/// frames, and no marks after the same frames that differ. The call does nothing.
#[tactic(auto, using(crate::proofs::ReplayLawLemmas::match_laws))]
pub fn replays_of_one_match_have_no_difference()
    ensures one { (r s : Replay) → IsValidReplay r → IsValidReplay s →
        replay_differences r s ≡ [] → AreOneMatch r s }
    ensures none { (r s : Replay) → AreOneMatch r s → replay_differences r s ≡ [] }
{}

/// A law of two replays with as many clients: the differing entries that are printed are those of
/// the first frame that differs. The call does nothing.
#[tactic(auto, using(crate::proofs::ReplayLawLemmas::least_frame))]
pub fn the_least_frame_differs()
    ensures { (r s : Replay) → IsValidReplay r → IsValidReplay s → r.clients ≡ s.clients →
        AreOfLeastFrame r s (entries_differences r s) }
{}
