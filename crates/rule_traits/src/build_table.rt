ghost use Rattle.std.specs.Prelude.{◌≡◌, ℕ, ◌≤◌, [], true, List, slice_set, length};
ghost use Rattle.std.specs.Prelude.{if◌then◌else◌, IfOk, OnOk};
ghost use Rattle.std.specs.Str.{bytes_eq};
ghost use Rattle.rule_traits.specs.BuildTable.{IsTableOf, ends_in, marked, row_of, users_in};
ghost use Rattle.rule_traits.specs.BuildTable.{with_kinds, with_queue, with_queues, with_user};
ghost use Rattle.rule_traits.specs.declared.TheConstants.{MAX_KINDS};

use crate::kind::Kind;
use crate::lists::{BuildRow, BuildRows, KindNumbers};
use base::NoMemory;
use std::alloc::Global;
use std::collections::BTreeMap;
use yaml_lines::Text;

/// For each name of a queue the kinds that have it.
type QueueUsers<'a> = BTreeMap<&'a str, KindNumbers>;

/// Takes the kinds of a name out of the map.
fn take_users<'a>(alloc: Global, users: &mut QueueUsers<'a>, queue: &'a str) -> KindNumbers
    ensures taken { result ≡ users_in users.old queue.now }
    ensures rest { (name : List ℕ) → users_in users.new name ≡ (if bytes_eq queue.now name then []
        else users_in users.old name) }
{
    match users.remove(queue) {
        Some(numbers) => numbers,
        None => KindNumbers::new(alloc),
    }
}

/// Whether a kind comes last among these.
fn ends_in(numbers: &[u16], number: u16) -> bool
    ensures { result ≡ ends_in number numbers.now }
{
    match numbers.last() {
        Some(last) => *last == number,
        None => false,
    }
}

/// Adds a kind last, unless it comes last already: its queues may have a name many times.
fn push_user(numbers: &mut KindNumbers, number: u16) -> Result<(), NoMemory>
    ensures { OnOk result (numbers.new ≡ with_user number numbers.old) }
{
    if ends_in(numbers.as_slice(), number) {
        return Ok(());
    }
    numbers.push(number)
}

/// Adds a kind to those of a name.
fn add_user<'a>(
    alloc: Global,
    users: &mut QueueUsers<'a>,
    queue: &'a str,
    number: u16,
) -> Result<(), NoMemory>
    ensures { OnOk result ((name : List ℕ) → users_in users.new name ≡ with_queue number queue.now
        name (users_in users.old name)) }
{
    let mut numbers = take_users(alloc, users, queue);
    push_user(&mut numbers, number)?;
    users.insert(queue, numbers)?;
    Ok(())
}

/// Adds a kind to those of each of its queues.
#[tactic(auto, using(crate::proofs::BuildTableLemmas::queue_next))]
fn add_queues<'a>(
    alloc: Global,
    users: &mut QueueUsers<'a>,
    queues: &'a [Text],
    number: u16,
) -> Result<(), NoMemory>
    ensures { OnOk result ((name : List ℕ) → users_in users.new name ≡ with_queues number queues.now
        name (users_in users.old name)) }
{
    for queue in queues {
        add_user(alloc, users, queue.as_str(), number)?;
    }
    Ok(())
}

/// The kinds of each name of a queue, by rising number, each once.
#[tactic(auto, using(crate::proofs::BuildTableLemmas::users_next))]
fn queue_users<'a>(alloc: Global, kinds: &'a [Kind]) -> Result<QueueUsers<'a>, NoMemory>
    requires { length kinds.now ≤ MAX_KINDS }
    ensures { IfOk result (λ users. (name : List ℕ) → users_in users name ≡ with_kinds 0 kinds.now
        name []) }
{
    let mut users = BTreeMap::new(alloc);
    for (number, kind) in kinds.iter().enumerate() {
        add_queues(alloc, &mut users, kind.queue(), number as u16)?;
    }
    Ok(users)
}

/// The kinds of a name.
fn users_at<'b>(users: &'b QueueUsers, name: &str) -> &'b [u16]
    ensures { result.now ≡ users_in users.now name.now }
{
    match users.get(name) {
        Some(numbers) => numbers.as_slice(),
        None => &[],
    }
}

/// Sets a bit, if the row has it.
#[tactic(auto, using(crate::proofs::BuildTableLemmas::set_past))]
fn set_bit(row: &mut [bool], at: usize)
    ensures { row.new ≡ slice_set row.old at true }
{
    if at < row.len() {
        row[at] = true;
    }
}

/// Sets the bits of these kinds.
fn mark(row: &mut [bool], users: &[u16])
    ensures { row.new ≡ marked row.old users.now }
{
    for user in users {
        set_bit(row, usize::from(*user));
    }
}

/// The bits of one builder.
fn build_row(
    alloc: Global,
    users: &QueueUsers,
    builder: &Kind,
    kinds: usize,
) -> Result<BuildRow, NoMemory>
    ensures { IfOk result (λ row. row ≡ row_of (users_in users.now) kinds builder.now) }
{
    let produces = builder.produces();
    let width = if produces.is_empty() { 0 } else { kinds };
    let mut row = vec![in alloc; false; width]?;
    for name in produces {
        mark(row.as_mut_slice(), users_at(users, name.as_str()));
    }
    Ok(BuildRow::from_vec(row))
}

/// The rows of all kinds.
#[tactic(auto, using(crate::proofs::BuildTableLemmas::rows_done))]
pub fn build_rows(alloc: Global, kinds: &[Kind]) -> Result<BuildRows, NoMemory>
    requires { length kinds.now ≤ MAX_KINDS }
    ensures { IfOk result (λ rows. IsTableOf kinds.now rows) }
{
    let users = queue_users(alloc, kinds)?;
    let mut rows = BuildRows::new(alloc);
    for kind in kinds {
        rows.push(build_row(alloc, &users, kind, kinds.len())?)?;
    }
    Ok(rows)
}
