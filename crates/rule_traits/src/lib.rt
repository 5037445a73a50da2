//! Typed rules: the kinds that a resolved rule forest describes, with the values of their traits.
//!
//! Stands on `yaml_lines` for forests and on `rule_values` for the forms of values. `type_rules`
//! gives exactly the kinds of the table of traits and the list of what it passed over, or the first
//! fault in preorder with its place.
#![tactic(auto)]

mod build_table;
mod fault;
mod field;
mod kind;
mod kind_names;
mod lists;
mod reading;
mod rules;
mod sample;
mod setting;
mod skipped;
mod table;
mod trait_fields;
mod trait_value;
mod traits;
mod typing;

pub use fault::RuleFault;
pub use kind::Kind;
pub use lists::{KindNumbers, NameList, SkippedList};
pub use rules::Rules;
pub use sample::SAMPLE_RULES;
pub use skipped::Skipped;
pub use trait_fields::{
    Armament, Buildable, Costs, Harvester, Health, Mobile, Production, Refinery, Reveals, Valued,
};
pub use traits::Trait;
pub use typing::type_rules;

/// The most kinds that rules may have. Kinds are numbered from 0.
pub const MAX_KINDS: u16 = 1_024;
