ghost use Rattle.std.specs.Prelude.{◌≡◌};
ghost use Rattle.game_model.specs.declared.world.World.{World};
ghost use Rattle.world_text.specs.Numbers.{IsWorldHeld};
ghost use Rattle.world_text.specs.WorldText.{world_text};

/// A law of the text: it tells every field. Two worlds of one size with the same text are equal.
/// [`numbers_are_held`](crate::numbers_are_held) says that all worlds of code are such. The call
/// does nothing.
#[tactic(auto, using(crate::proofs::TellingLemmas::same_worlds))]
pub fn text_tells_the_world()
    ensures { (w v : World) → IsWorldHeld w → IsWorldHeld v → w.ore.width ≡ v.ore.width →
        w.ore.height ≡ v.ore.height → world_text w ≡ world_text v → w ≡ v }
{}
