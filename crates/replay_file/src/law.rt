ghost use Rattle.std.specs.Prelude.{◌≡◌, ◌≤◌, ℕ, List, true, map, Ok, Err};
ghost use Rattle.std.specs.List.{AllByRecursion};
ghost use Rattle.replay_file.specs.declared.replay.Replay.{Replay};
ghost use Rattle.replay_file.specs.declared.replay_fault.ReplayFault.{ReplayFault};
ghost use Rattle.replay_file.specs.FirstFault.{IsFirstFault, Spells};
ghost use Rattle.replay_file.specs.Frames.{frames_of, marks_of};
ghost use Rattle.replay_file.specs.Migrated.{anew, migrated};
ghost use Rattle.replay_file.specs.PartRules.{greatest_tag, is_known, most_clients, most_frames};
ghost use Rattle.replay_file.specs.Reading.{read_of};
ghost use Rattle.replay_file.specs.RuleLaws.{HasKnownOrders, ObeysRules};
ghost use Rattle.replay_file.specs.ValidReplay.{IsValidReplay};

/// A law of the rules: a valid replay has, as a whole, at most so many frames, each with one entry
/// for each client and a play, in which who has departed stays departed, and marks of which none
/// stands directly after another, and all its orders are of its version; and a replay of a known
/// version and so many clients of which this holds is valid. The call does nothing.
#[tactic(auto, using(crate::proofs::ValidLemmas::rule_laws))]
pub fn the_rules_are_these()
    ensures whole { (r : Replay) → IsValidReplay r →
        ObeysRules r.clients (most_frames r.version) r.parts }
    ensures orders { (r : Replay) → IsValidReplay r →
        AllByRecursion (HasKnownOrders (greatest_tag r.version)) r.parts }
    ensures back { (r : Replay) → is_known r.version ≡ true → 1 ≤ r.clients →
        r.clients ≤ most_clients r.version → ObeysRules r.clients (most_frames r.version) r.parts →
        AllByRecursion (HasKnownOrders (greatest_tag r.version)) r.parts → IsValidReplay r }
{}

/// A law of replays as bytes: bytes spell at most one replay. The call does nothing.
#[tactic(auto, using(crate::proofs::WholeLemmas::one_replay))]
pub fn bytes_spell_one_replay()
    ensures { (here : ℕ) (bytes : List ℕ) (r q : Replay) → Spells here bytes r →
        Spells here bytes q → r ≡ q }
{}

/// A law of faults: bytes that spell a replay have none, and others at most one first fault. The
/// call does nothing.
#[tactic(auto, using(crate::proofs::WholeLemmas::fault_laws))]
pub fn bytes_have_one_first_fault()
    ensures none { (here : ℕ) (bytes : List ℕ) (r : Replay) (fault : ReplayFault) →
        Spells here bytes r → IsFirstFault here bytes fault → ⊥ }
    ensures one { (here : ℕ) (bytes : List ℕ) (fault other : ReplayFault) →
        IsFirstFault here bytes fault → IsFirstFault here bytes other → fault ≡ other }
{}

/// A law of reading: bytes that spell a replay are read as it, and those with a first fault as that
/// fault. The call does nothing.
#[tactic(auto, using(crate::proofs::ReadingLemmas::reading_laws))]
pub fn bytes_are_read_as_they_spell()
    ensures replay { (here : ℕ) (bytes : List ℕ) (r : Replay) → Spells here bytes r →
        read_of here bytes ≡ Ok r }
    ensures fault { (here : ℕ) (bytes : List ℕ) (fault : ReplayFault) →
        IsFirstFault here bytes fault → read_of here bytes ≡ Err fault }
{}

/// A law of migrated replays: they are valid, with the same frames, and with marks at the same
/// places that have the new hashes. The call does nothing.
#[tactic(auto, using(crate::proofs::MigratedLemmas::migrated_laws))]
pub fn a_migrated_replay_is_valid()
    ensures valid { (hash_after : ℕ → ℕ) (r : Replay) → IsValidReplay r →
        IsValidReplay (migrated hash_after r) }
    ensures frames { (hash_after : ℕ → ℕ) (r : Replay) →
        frames_of (migrated hash_after r).parts ≡ frames_of r.parts }
    ensures marks { (hash_after : ℕ → ℕ) (r : Replay) →
        marks_of (migrated hash_after r).parts ≡ map (anew hash_after) (marks_of r.parts) }
{}
