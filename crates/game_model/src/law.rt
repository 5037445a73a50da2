ghost use Rattle.std.specs.Prelude.{◌≤◌, ℕ};
ghost use Rattle.game_model.specs.ValidMap.{IsSetup};
ghost use Rattle.game_model.specs.ValidWorld.{IsValidWorld};
ghost use Rattle.game_model.specs.World.{start_of};
ghost use Rattle.game_orders.specs.declared.limits.TheConstants.{MAX_CLIENTS};
ghost use Rattle.game_model.specs.Setup.{Setup};

/// A law of opening worlds: that of valid rules, and of a map that keeps what it keeps for them, is
/// valid after no frames.
#[tactic(auto, using(crate::proofs::StartLemmas::start_valid))]
pub fn starts_valid()
    ensures { (setup : Setup) (seed clients : ℕ) → IsSetup setup → 1 ≤ clients →
        clients ≤ MAX_CLIENTS → IsValidWorld setup 0 (start_of setup seed clients) }
{}
