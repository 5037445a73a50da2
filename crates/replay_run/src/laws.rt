ghost use Rattle.std.specs.Prelude.{◌≡◌, ◌≤◌, ℕ, List, Some, None};
ghost use Rattle.frame_core.specs.Column.{Column};
ghost use Rattle.frame_core.specs.Match.{Match};
ghost use Rattle.replay_file.specs.declared.part.Part.{Part};
ghost use Rattle.replay_file.specs.declared.replay.Replay.{Replay};
ghost use Rattle.replay_file.specs.Frames.{marks_of};
ghost use Rattle.replay_run.specs.declared.difference.Difference.{Difference};
ghost use Rattle.replay_run.specs.RecordLaws.{AllAgree, IsLeastDifference, agreed_replayed};
ghost use Rattle.replay_run.specs.RecordLaws.{rerun_of};
ghost use Rattle.replay_run.specs.Recording.{replay_of};
ghost use Rattle.replay_run.specs.Rerun.{Rerun, difference_of, first_difference, migrated_over};
ghost use Rattle.replay_run.specs.Rerun.{frame_count, hash_in, marks_before, marks_from};
ghost use Rattle.replay_run.specs.Rerun.{replayed, replayed_from, replayed_late, resumed_at};
ghost use Rattle.replay_run.specs.Rerun.{world_from, world_in};

use frame_core::Sim;

/// A law of differing marks: the one that is found is a mark that differs, and no differing mark
/// has fewer frames before it; where none is found, each mark has the hash for its number of
/// frames. So it is of the marks that have so many frames or more before them. The call does
/// nothing.
#[tactic(auto, using(crate::proofs::RecordLawsLemmas::difference_laws))]
pub fn the_least_mark_differs()
    ensures least { (hash_at : ℕ → ℕ) (parts : List Part) (d : Difference) →
        first_difference hash_at (marks_of parts) ≡ Some d →
        IsLeastDifference hash_at (marks_of parts) d }
    ensures none { (hash_at : ℕ → ℕ) (parts : List Part) →
        first_difference hash_at (marks_of parts) ≡ None → AllAgree hash_at (marks_of parts) }
    ensures later { (hash_at : ℕ → ℕ) (from : ℕ) (parts : List Part) (d : Difference) →
        first_difference hash_at (marks_from from parts) ≡ Some d →
        IsLeastDifference hash_at (marks_from from parts) d }
    ensures none_later { (hash_at : ℕ → ℕ) (from : ℕ) (parts : List Part) →
        first_difference hash_at (marks_from from parts) ≡ None →
        AllAgree hash_at (marks_from from parts) }
{}

/// A law of records: the replay of a match has no differing mark over its opening world, and gives
/// the agreed world of the ticked frames. The call does nothing.
#[tactic(auto, using(crate::proofs::RecordLawsLemmas::record_replayed))]
pub fn a_record_gives_the_match<S: Sim>()
    ensures { (m : Match S) (first_hash : S → ℕ) (rules seed : ℕ) (columns : List Column) (n : ℕ) →
        replayed (rerun_of m first_hash) (replay_of m rules seed columns n)
        ≡ agreed_replayed m columns n }
{}

/// A law of migrated replays: where no mark of the old replay differs, the new one gives what the
/// old one gives. The call does nothing.
#[tactic(auto, using(crate::proofs::RecordLawsLemmas::migrated_replayed))]
pub fn a_migrated_replay_gives_the_same<S: Sim>()
    ensures { (run : Rerun S) (r : Replay) → difference_of run r ≡ None →
        replayed run (migrated_over run r) ≡ replayed run r }
{}

/// A law of runs from a frame on: over the world after the first k frames of a replay, the world
/// after m frames is that of the whole run, and the run from k gives what the whole run gives, with
/// the differing mark among those that have k frames or more before them. So where none of the
/// others differs it gives the same. The call does nothing.
#[tactic(auto, using(crate::proofs::ResumeLemmas::resumed_laws))]
pub fn a_resumed_run_gives_the_same<S: Sim>()
    ensures worlds { (run : Rerun S) (r : Replay) (k m : ℕ) → k ≤ m →
        world_from (resumed_at run k r) k r.parts m ≡ world_in run r.parts m }
    ensures given { (run : Rerun S) (r : Replay) (k : ℕ) → k ≤ frame_count r →
        replayed_from (resumed_at run k r) k r ≡ replayed_late run k r }
    ensures same { (run : Rerun S) (r : Replay) (k : ℕ) → k ≤ frame_count r →
        AllAgree (hash_in run r) (marks_before k r.parts) →
        replayed_from (resumed_at run k r) k r ≡ replayed run r }
{}
