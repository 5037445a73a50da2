ghost use Rattle.std.specs.Prelude.{◌≡◌, ◌∷◌, [], ℕ, List, Some, Ok};
ghost use Rattle.map_grid.specs.declared.sample.TheConstants.{SAMPLE_MAP};
ghost use Rattle.rule_commands.specs.SampleSetup.{sample_setup};
ghost use Rattle.rule_commands.specs.Setups.{setup_step};
ghost use Rattle.rule_traits.specs.declared.sample.TheConstants.{SAMPLE_RULES};

/// A law of the sample: its rules are typed without a fault, and its map is read over them without
/// one, whatever the names of the two files are; they are exactly these values.
#[tactic(auto, using(crate::proofs::SampleLemmas::sample_has_no_fault))]
pub fn sample_has_no_fault()
    ensures { (rules_name map_name : List ℕ) →
        setup_step (rules_name ∷ []) (SAMPLE_RULES.now ∷ []) (Some map_name) (Some SAMPLE_MAP.now)
        ≡ Ok sample_setup }
{}
