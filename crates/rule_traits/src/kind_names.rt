ghost use Rattle.std.specs.Prelude.{◌≡◌, IfOk, OnOk, Some, None, if◌then◌else◌};
ghost use Rattle.std.specs.Option.{option_or};
ghost use Rattle.std.specs.Str.{bytes_eq};
ghost use Rattle.yaml_lines.specs.Trees.{trees_of};
ghost use Rattle.std.specs.Prelude.{ℕ, List};
ghost use Rattle.rule_traits.specs.Kinds.{is_kind, next_number, number_of_kind};
ghost use Rattle.rule_traits.specs.Numbered.{number_in};

use crate::MAX_KINDS;
use base::NoMemory;
use std::alloc::Global;
use std::collections::BTreeMap;
use std::marker::Model;
use yaml_lines::Forest;

/// The numbers of the kinds among the top-level nodes by their names, seen as these nodes.
#[derive(Drop)]
pub struct KindNames<'a> {
    top: &'a Forest,
    numbers: BTreeMap<&'a str, u16>,
}

impl<'a> Model for KindNames<'a> {
    ghost use Rattle.std.specs.Coded.{codes};
    ghost use Rattle.std.specs.Prelude.{ℕ, List, ◌≡◌};
    ghost use Rattle.yaml_lines.specs.contracts.forest.Forest as forest;
    ghost use Rattle.yaml_lines.specs.declared.forest.Forest.{Forest};
    ghost use Rattle.yaml_lines.specs.Trees.{trees_of};
    ghost use Rattle.rule_traits.specs.Kinds.{number_of_kind};
    ghost use Rattle.rule_traits.specs.Numbered.{number_in};

    ghost Value = { Forest };

    ghost coded = { Prim.hlevel (codes, forest.the_row.coded) };

    ghost view = { λ kinds. kinds.top.now };

    ghost invariant = { λ kinds. (name : List ℕ) → number_in kinds.numbers name ≡ number_of_kind
        (trees_of kinds.top.now) name };
}

/// Whether a top-level node is a kind: its key doesn't begin with `^`.
pub fn is_kind(key: &str) -> bool
    ensures { result ≡ is_kind key.now }
{
    match key.as_bytes() {
        [first, ..] => *first != b'^',
        [] => true,
    }
}

impl<'a> KindNames<'a> {
    /// The kinds among these nodes.
    pub fn of(alloc: Global, top: &'a Forest) -> Result<KindNames<'a>, NoMemory>
        ensures { IfOk result (λ kinds. kinds ≡ top.now) }
    {
        let numbers = number_kinds(alloc, top)?;
        Ok(KindNames { top, numbers })
    }

    /// The number of the first kind with this name.
    pub fn number(&self, name: &str) -> Option<u16>
        ensures { result ≡ number_of_kind (trees_of self.now) name.now }
    {
        self.numbers.get(name).copied()
    }
}

/// The number after this one. All kinds that are too many share the number `MAX_KINDS`.
fn next_number(number: u16) -> u16
    ensures { result ≡ next_number number }
{
    if number < MAX_KINDS {
        number + 1
    } else {
        number
    }
}

/// Notes a kind's number under its name, unless an earlier kind has the name.
#[tactic(auto, using(crate::proofs::KindsLemmas::note_steps))]
fn note_kind<'a>(
    numbers: &mut BTreeMap<&'a str, u16>,
    name: &'a str,
    number: u16,
) -> Result<(), NoMemory>
    ensures { OnOk result ((q : List ℕ) → number_in numbers.new q ≡ option_or (number_in numbers.old
        q) (if bytes_eq q name.now then Some number else None)) }
{
    if !numbers.contains_key(name) {
        numbers.insert(name, number)?;
    }
    Ok(())
}

/// The number of the first kind of each name, from 0.
#[tactic(auto, using(crate::proofs::KindsLemmas::kind_steps), unfolding(crate::specs::Kinds::number_of_kind))]
fn number_kinds<'a>(alloc: Global, top: &'a Forest) -> Result<BTreeMap<&'a str, u16>, NoMemory>
    ensures { IfOk result (λ numbers. (name : List ℕ) → number_in numbers name ≡ number_of_kind
        (trees_of top.now) name) }
{
    let mut numbers = BTreeMap::new(alloc);
    let mut number = 0;
    for node in &top.nodes {
        let name = node.key.as_str();
        if !is_kind(name) {
            continue;
        }
        note_kind(&mut numbers, name, number)?;
        number = next_number(number);
    }
    Ok(numbers)
}
