ghost use Rattle.std.specs.Prelude.{◌≡◌, ◌≤◌, [], IfOk, IfErr, Ok, Err};
ghost use Rattle.rule_values.specs.NameList.{names_of};
ghost use Rattle.yaml_lines.specs.Trees.{trees_of};
ghost use Rattle.rule_traits.specs.Kinds.{numbers_after};
ghost use Rattle.rule_traits.specs.Values.{field_value};
ghost use Rattle.base.specs.Steps.{IsFault};
ghost use Rattle.rule_traits.specs.declared.fault.RuleFault.TheVariants.{NoMemory};

use crate::fault::RuleFault;
use crate::field::{Field, Form};
use crate::kind_names::KindNames;
use crate::lists::{KindNumbers, NameList};
use base::NoMemory;
use rule_values::{names, read_dist, read_number};
use std::alloc::Global;
use yaml_lines::{Place, Text};

/// The value of a field that holds a number.
#[tactic(auto, unfolding(crate::specs::Values::field_value))]
pub fn read_field(field: Field, text: &str, place: Place) -> Result<u32, RuleFault>
    ensures value { IfOk result (λ n. field_value field text.now place ≡ Ok n) }
    ensures least { IfOk result (λ n. field.least ≤ n) }
    ensures greatest { IfOk result (λ n. n ≤ field.greatest) }
    ensures fault { IfErr result (λ fault. field_value field text.now place ≡ Err fault) }
{
    let number = match field.form {
        Form::Number => read_number(text),
        Form::Distance => read_dist(text),
    };
    let Some(number) = number else {
        return Err(RuleFault::BadValue { place });
    };
    if number < u64::from(field.least) || u64::from(field.greatest) < number {
        return Err(RuleFault::OutOfRange { place });
    }
    Ok(number as u32)
}

/// A name of a list as a text. Where the name is the whole list, its bytes are not copied.
#[tactic(auto, using(crate::proofs::EachLemmas::same_text))]
fn name_text(alloc: Global, list: &Text, name: &str) -> Result<Text, NoMemory>
    ensures { IfOk result (λ text. text ≡ name.now) }
{
    if list.as_str() == name {
        return list.copy();
    }
    Text::from_string(String::from_str(alloc, name)?)
}

/// The names of a list.
pub fn read_names(alloc: Global, text: &Text) -> Result<NameList, NoMemory>
    ensures { IfOk result (λ list. list ≡ names_of text.now) }
{
    let mut list = NameList::new(alloc);
    for name in names(text.as_str()) {
        list.push(name_text(alloc, text, name)?)?;
    }
    Ok(list)
}

/// The numbers of the kinds that a list names.
pub fn read_kinds(
    alloc: Global,
    kinds: &KindNames,
    text: &str,
    place: Place,
) -> Result<KindNumbers, RuleFault>
    ensures numbers { IfOk result (λ list. numbers_after (trees_of kinds.now) place (names_of
        text.now) [] ≡ Ok list) }
    ensures fault { IfErr result (λ fault. IsFault NoMemory fault (numbers_after (trees_of
        kinds.now) place (names_of text.now) [])) }
{
    let mut list = KindNumbers::new(alloc);
    for name in names(text) {
        let Some(number) = kinds.number(name) else {
            return Err(RuleFault::UnknownKindName { place });
        };
        list.push(number)?;
    }
    Ok(list)
}
