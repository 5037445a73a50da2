ghost use Rattle.std.specs.Prelude.{◌≡◌, IfOk, IfErr, OnOk, Ok};
ghost use Rattle.yaml_lines.specs.Trees.{trees_of};
ghost use Rattle.yaml_lines.specs.declared.forest.Forest.TheViews.{out-Node};
ghost use Rattle.rule_traits.specs.Described.{kinds_of};
ghost use Rattle.rule_traits.specs.Kinds.{kind_keys};
ghost use Rattle.rule_traits.specs.Typed.{has_field, kind_read, kind_taken, kinds_read};
ghost use Rattle.rule_traits.specs.Typed.{lacks_field};
ghost use Rattle.rule_traits.specs.Typed.{names_of_kinds, passed, step_at, trait_joined};
ghost use Rattle.rule_traits.specs.Typed.{trait_read};
ghost use Rattle.rule_traits.specs.Typed.{trait_taken, typed, IsRuleFault};
ghost use Rattle.rule_traits.specs.ValidRules.{AreValidRules};

use crate::MAX_KINDS;
use crate::fault::RuleFault;
use crate::kind::Kind;
use crate::kind_names::{KindNames, is_kind};
use crate::lists::SkippedList;
use crate::rules::Rules;
use crate::skipped::Skipped;
use crate::trait_value::TraitValue;
use crate::traits::Trait;
use base::NoMemory;
use std::alloc::Global;
use yaml_lines::{Forest, Node};

/// Lists a node that is passed over.
fn pass_over(skipped: &mut Vec<Skipped>, node: &Node) -> Result<(), NoMemory>
    ensures { OnOk result (skipped.new.items ≡ passed skipped.old.items (out-Node node.now).place
        (out-Node node.now).key) }
{
    let key = node.key.copy()?;
    skipped.push(Skipped {
        place: node.place,
        key,
    })?;
    Ok(())
}

/// A known trait with the fields below its node.
#[tactic(auto, using(crate::proofs::EachLemmas::each_steps))]
fn read_trait(
    alloc: Global,
    kinds: &KindNames,
    known: Trait,
    fields: &Forest,
    skipped: &mut Vec<Skipped>,
) -> Result<TraitValue, RuleFault>
    ensures read { IfOk result (λ value. trait_read (trees_of kinds.now) known skipped.old.items
        (trees_of fields.now) ≡ Ok (value, skipped.new.items)) }
    ensures fault { IfErr result (λ fault. IsRuleFault fault (trait_read (trees_of kinds.now) known
        skipped.old.items (trees_of fields.now))) }
{
    let mut value = TraitValue::plain(alloc, known);
    for node in &fields.nodes {
        if !value.set(alloc, kinds, node)? {
            pass_over(skipped, node)?;
        }
    }
    Ok(value)
}

/// Whether a field of this name stands in the list.
#[tactic(auto, using(crate::proofs::EachLemmas::field_steps))]
fn has_field(name: &str, fields: &Forest) -> bool
    ensures { result ≡ has_field name.now (trees_of fields.now) }
{
    for node in &fields.nodes {
        if node.key.as_str() == name {
            return true;
        }
    }
    false
}

/// Whether the trait lacks a field that it needs.
fn lacks_field(known: Trait, fields: &Forest) -> bool
    ensures { result ≡ lacks_field known (trees_of fields.now) }
{
    known == Trait::Production && !has_field("Produces", fields)
}

/// Adds a trait to a kind that hasn't got it.
#[tactic(auto, unfolding(crate::specs::Typed::trait_joined))]
fn join_trait(
    alloc: Global,
    kinds: &KindNames,
    kind: &mut Kind,
    known: Trait,
    node: &Node,
    skipped: &mut Vec<Skipped>,
) -> Result<(), RuleFault>
    ensures joined { OnOk result (trait_joined (trees_of kinds.now) (kind.old, skipped.old.items)
        (out-Node node.now).place (trees_of (out-Node node.now).children) known ≡ Ok (
          kind.new,
          skipped.new.items,
        )) }
    ensures fault { IfErr result (λ fault. IsRuleFault fault (trait_joined (trees_of kinds.now)
        (kind.old, skipped.old.items) (out-Node node.now).place (trees_of (out-Node
        node.now).children) known)) }
{
    if lacks_field(known, &node.children) {
        return Err(RuleFault::MissingField { place: node.place });
    }
    let value = read_trait(alloc, kinds, known, &node.children, skipped)?;
    kind.add(value);
    Ok(())
}

/// Takes a trait's node into a kind.
#[tactic(auto, unfolding(crate::specs::Typed::trait_taken))]
fn take_trait(
    alloc: Global,
    kinds: &KindNames,
    kind: &mut Kind,
    node: &Node,
    skipped: &mut Vec<Skipped>,
) -> Result<(), RuleFault>
    ensures taken { OnOk result (step_at (trait_taken (trees_of kinds.now)) (
      kind.old,
      skipped.old.items,
    ) node.now ≡ Ok (kind.new, skipped.new.items)) }
    ensures fault { IfErr result (λ fault. IsRuleFault fault (step_at (trait_taken (trees_of
        kinds.now)) (kind.old, skipped.old.items) node.now)) }
{
    match Trait::of_key(node.key.as_str()) {
        Some(known) if !kind.has(known) => join_trait(alloc, kinds, kind, known, node, skipped),
        _ => Ok(pass_over(skipped, node)?),
    }
}

/// A kind with the traits below its node.
#[tactic(auto, using(crate::proofs::EachLemmas::each_steps))]
fn read_kind(
    alloc: Global,
    kinds: &KindNames,
    node: &Node,
    skipped: &mut Vec<Skipped>,
) -> Result<Kind, RuleFault>
    ensures read { IfOk result (λ kind. kind_read (trees_of kinds.now) (out-Node node.now).key
        skipped.old.items (trees_of (out-Node node.now).children) ≡ Ok (kind, skipped.new.items)) }
    ensures fault { IfErr result (λ fault. IsRuleFault fault (kind_read (trees_of kinds.now)
        (out-Node node.now).key skipped.old.items (trees_of (out-Node node.now).children))) }
{
    let mut kind = Kind::plain(node.key.copy()?);
    for below in &node.children.nodes {
        take_trait(alloc, kinds, &mut kind, below, skipped)?;
    }
    Ok(kind)
}

/// Takes a top-level node into the kinds.
#[tactic(auto, unfolding(crate::specs::Typed::kind_taken))]
fn take_kind(
    alloc: Global,
    kinds: &KindNames,
    made: &mut Vec<Kind>,
    node: &Node,
    skipped: &mut Vec<Skipped>,
) -> Result<(), RuleFault>
    ensures taken { OnOk result (step_at (kind_taken (trees_of kinds.now)) (
      made.old.items,
      skipped.old.items,
    ) node.now ≡ Ok (made.new.items, skipped.new.items)) }
    ensures fault { IfErr result (λ fault. IsRuleFault fault (step_at (kind_taken (trees_of
        kinds.now)) (made.old.items, skipped.old.items) node.now)) }
{
    if !is_kind(node.key.as_str()) {
        return Ok(());
    }
    if made.len() >= usize::from(MAX_KINDS) {
        return Err(RuleFault::TooManyKinds { place: node.place });
    }
    let kind = read_kind(alloc, kinds, node, skipped)?;
    made.push(kind)?;
    Ok(())
}

/// The kinds of the top-level nodes, and what is passed over in them.
#[tactic(auto, using(crate::proofs::EachLemmas::each_steps))]
fn read_kinds(
    alloc: Global,
    kinds: &KindNames,
    forest: &Forest,
) -> Result<(Vec<Kind>, SkippedList), RuleFault>
    ensures read { IfOk result (λ made. kinds_read (trees_of kinds.now) (trees_of forest.now) ≡ Ok
        (made.0.items, made.1)) }
    ensures fault { IfErr result (λ fault. IsRuleFault fault (kinds_read (trees_of kinds.now)
        (trees_of forest.now))) }
{
    let mut made = Vec::new(alloc);
    let mut skipped = Vec::new(alloc);
    for node in &forest.nodes {
        take_kind(alloc, kinds, &mut made, node, &mut skipped)?;
    }
    Ok((made, SkippedList::from_vec(skipped)))
}

/// The kinds of a resolved rule forest, and what was passed over in it in preorder.
///
/// The top-level nodes whose keys don't begin with `^` are the kinds, numbered from 0 in their
/// order. What stands before the first `@` of the key of a node below a kind is the trait's name.
/// A trait that isn't known or that the kind has already, and a field that its trait hasn't, are
/// passed over. Where a trait has a field twice, both are read and the later one holds; in a
/// resolved forest none has. The rules are valid: each number is in its field's range, and each
/// needed kind is there.
///
/// The fault is the first in preorder. `BadValue` and `OutOfRange` come at a field, and
/// `UnknownKindName` at a field `Needs` that names no kind of the forest. `MissingField` comes at
/// the node of a `Production` without `Produces`, before the faults of its fields. `TooManyKinds`
/// comes at the kind that follows `MAX_KINDS` kinds. `NoMemory` may come in place of any answer.
#[tactic(auto, unfolding(crate::specs::Typed::typed))]
pub fn type_rules(alloc: Global, forest: &Forest) -> Result<(Rules, SkippedList), RuleFault>
    ensures typed { IfOk result (λ made. typed (trees_of forest.now) ≡ Ok made) }
    ensures kinds { IfOk result (λ made. names_of_kinds made.0 ≡ kind_keys (trees_of forest.now)) }
    ensures described { IfOk result (λ made. made.0 ≡ kinds_of (trees_of forest.now) (trees_of
        forest.now)) }
    ensures valid { IfOk result (λ made. AreValidRules made.0) }
    ensures fault { IfErr result (λ fault. IsRuleFault fault (typed (trees_of forest.now))) }
{
    let names = KindNames::of(alloc, forest)?;
    let (kinds, skipped) = read_kinds(alloc, &names, forest)?;
    Ok((Rules::of(alloc, kinds)?, skipped))
}
