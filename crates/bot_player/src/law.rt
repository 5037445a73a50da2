ghost use Rattle.std.specs.Prelude.{ℕ, List};
ghost use Rattle.world_units.specs.declared.cell.CPos.{CPos};
ghost use Rattle.rule_traits.specs.declared.kind.Kind.{Kind};
ghost use Rattle.game_model.specs.declared.actor.Actor.{Actor};
ghost use Rattle.game_tick.specs.Orders.{Goods};
ghost use Rattle.bot_player.specs.Laws.{TellsLeast, TellsNearest};

/// The law of a bot's targets: the actor that is attacked is an enemy, no enemy is nearer, and of
/// those that are equally far none has a lesser id. There is none exactly where there is no enemy.
/// The call does nothing.
#[tactic(auto, using(crate::proofs::LawLemmas::tells_nearest))]
pub fn attacks_are_on_the_nearest_enemy()
    ensures { (rules : List Kind) (actors : List Actor) (c : ℕ) (from : CPos) →
        TellsNearest rules actors c from }
{}

/// The law of what a bot produces: a `Produce` of the kind fits, and of no kind of a lesser number.
/// There is none exactly where a `Produce` of no kind fits. The call does nothing.
#[tactic(auto, using(crate::proofs::LawLemmas::tells_least))]
pub fn products_are_the_least_that_fit()
    ensures { (rules : List Kind) (goods : Goods) (c : ℕ) (a : Actor) → TellsLeast rules goods c a }
{}
