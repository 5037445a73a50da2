//! That the texts of the sample rules and of the sample map have no fault and give their values, by
//! the definitions of reading, resolving, typing and maps.
#![tactic(auto)]

ghost use Rattle.std.specs.Prelude.{◌≡◌, [], Some};
ghost use Rattle.map_grid.specs.declared.sample.TheConstants.{SAMPLE_MAP};
ghost use Rattle.rule_sample.specs.MapText.{map_in};
ghost use Rattle.rule_sample.specs.RuleText.{rules_of};
ghost use Rattle.rule_sample.specs.SampleMap.{sample_map};
ghost use Rattle.rule_traits.specs.Sample.{sample_kinds};
ghost use Rattle.rule_traits.specs.declared.sample.TheConstants.{SAMPLE_RULES};

/// A law of the sample rules: their text, as the only rule file, has no fault, gives exactly their
/// four kinds with these values, and nothing in it is skipped.
pub fn sample_text_has_its_values()
    ensures { rules_of SAMPLE_RULES.now ≡ Some (sample_kinds, []) }
{}

/// A law of the sample map: its text has no fault over the kinds of the sample rules, and gives
/// exactly this map.
pub fn sample_map_has_its_value()
    ensures { map_in sample_kinds SAMPLE_MAP.now ≡ Some sample_map }
{}
