//! What reached a peer, client by client. Each call says what it does to the one list of what has
//! arrived.
ghost use Rattle.std.specs.Prelude.{◌≡◌, ◌≤◌, ◌<◌, [], ◌∷◌, ◌++◌, length};
ghost use Rattle.std.specs.Prelude.{IfOk, OnOk, OnErr};
ghost use Rattle.std.specs.Option.{unwrap_or};
ghost use Rattle.game_orders.specs.declared.entry.Entry.TheVariants.{Leave};
ghost use Rattle.peer_core.specs.Arrived.{has_of, frame_by, has_left};
ghost use Rattle.frame_core.specs.Input.{input_of};
ghost use Rattle.peer_core.specs.Delivery.{delivery_of, arrived_after};
ghost use Rattle.peer_core.specs.Entries.{all_arrived};
ghost use Rattle.peer_core.specs.Receipt.{receipt_of};

use crate::client_entries::ClientEntries;
use crate::delivered::Delivered;
use crate::receipt::Receipt;
use base::NoMemory;
use frame_core::Input;
use game_orders::{Entry, Frame, MAX_CLIENTS};
use std::alloc::Global;

/// Nothing yet, of so many clients.
pub(crate) fn no_entries(alloc: Global, clients: u8) -> Result<Vec<ClientEntries>, NoMemory>
    ensures none { IfOk result (λ entries. all_arrived 0 entries.items ≡ []) }
    ensures clients { IfOk result (λ entries. length entries.items ≡ clients) }
{
    let mut entries = Vec::new(alloc);
    for _client in 0..clients {
        entries.push(ClientEntries::new(alloc))?;
    }
    Ok(entries)
}

/// Whether the departure of client `c` is kept.
#[tactic(auto, using(crate::proofs::EntriesLemmas::all_gone))]
pub(crate) fn left(entries: &[ClientEntries], c: u8) -> bool
    requires { c < length entries.now }
    ensures { result ≡ has_left (all_arrived 0 entries.now) c }
{
    entries[c as usize].left()
}

/// What client `c` has for frame `n`, without its orders.
#[tactic(auto, using(crate::proofs::EntriesLemmas::all_has))]
pub(crate) fn input(entries: &[ClientEntries], c: u8, n: u32) -> Input
    requires { c < length entries.now }
    ensures { result ≡ input_of (has_of (all_arrived 0 entries.now) c n) }
{
    entries[c as usize].input(n)
}

/// Adds to a frame what client `c` has for frame `n`, or a departure where it has nothing.
#[tactic(auto, using(crate::proofs::EntriesLemmas::all_has))]
fn push_entry(entries: &[ClientEntries], c: u8, n: u32, frame: &mut Frame)
    requires own { c < length entries.now }
    requires room { length frame.old < MAX_CLIENTS }
    ensures { frame.new ≡ frame.old
        ++ unwrap_or (has_of (all_arrived 0 entries.now) c n) Leave ∷ [] }
{
    entries[c as usize].push_to(n, frame)
}

/// Makes an empty frame frame `n`: what each client has for it, and a departure for a client that
/// has nothing.
pub(crate) fn fill_frame(entries: &[ClientEntries], clients: u8, n: u32, frame: &mut Frame)
    requires all { clients ≤ length entries.now }
    requires most { clients ≤ MAX_CLIENTS }
    requires empty { frame.old ≡ [] }
    ensures value { frame.new ≡ frame_by (all_arrived 0 entries.now) clients n }
    ensures whole { length frame.new ≡ clients }
{
    for c in 0..clients {
        push_entry(entries, c, n, frame);
    }
}

/// Delivers an entry of client `c` at frame `n`.
#[tactic(auto, using(crate::proofs::EntriesLemmas::delivery_laws))]
pub(crate) fn deliver_to(
    entries: &mut Vec<ClientEntries>,
    c: u8,
    n: u32,
    e: Entry,
) -> Result<Delivered, NoMemory>
    requires { c < length entries.old.items }
    ensures answer { IfOk result (λ answer. answer
        ≡ delivery_of (all_arrived 0 entries.old.items) c n e) }
    ensures after { OnOk result (all_arrived 0 entries.new.items
        ≡ arrived_after (all_arrived 0 entries.old.items) c n e) }
    ensures clients { length entries.new.items ≡ length entries.old.items }
    ensures err { OnErr result (entries.new.items ≡ entries.old.items) }
{
    entries[c as usize].deliver(n, e)
}

/// Delivers a lent entry of client `c` at frame `n`.
#[tactic(auto, using(crate::proofs::EntriesLemmas::delivery_laws))]
pub(crate) fn receive_from(
    entries: &mut Vec<ClientEntries>,
    c: u8,
    n: u32,
    e: &Entry,
) -> Result<Receipt, NoMemory>
    requires { c < length entries.old.items }
    ensures answer { IfOk result (λ receipt. receipt
        ≡ receipt_of (delivery_of (all_arrived 0 entries.old.items) c n e.now)) }
    ensures after { OnOk result (all_arrived 0 entries.new.items
        ≡ arrived_after (all_arrived 0 entries.old.items) c n e.now) }
    ensures clients { length entries.new.items ≡ length entries.old.items }
    ensures err { OnErr result (entries.new.items ≡ entries.old.items) }
{
    entries[c as usize].receive(n, e)
}
