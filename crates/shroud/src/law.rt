ghost use Rattle.std.specs.Prelude.{ℕ, List};
ghost use Rattle.rule_traits.specs.declared.kind.Kind.{Kind};
ghost use Rattle.shroud.specs.Laws.{FollowsAll, Update};

/// The law of a shroud that was created and updated by some worlds, whatever was counted: it shows
/// what the actors of the last one see, and as explored what was seen in any of them. The call does
/// nothing.
#[tactic(auto, using(crate::proofs::LawsLemmas::follows_all))]
pub fn follows_all_worlds()
    ensures { (rules : List Kind) (width height clients : ℕ) (updates : List Update) (last : Update)
        →
        FollowsAll rules width height clients updates last }
{}
