ghost use Rattle.std.specs.Prelude.{◌≡◌, ◌≤◌, ◌<◌, [], ◌∷◌, ◌++◌, length};
ghost use Rattle.std.specs.Prelude.{is_some, None, IfOk, OnOk, OnErr};
ghost use Rattle.peer_core.specs.Entries.{IsByFrame, no_entries, play_at, entry_of, own_has};
ghost use Rattle.peer_core.specs.Entries.{own_past, own_delivery, own_after, with_entry};
ghost use Rattle.peer_core.specs.Entries.{if_before, if_after};
ghost use Rattle.frame_core.specs.Input.{input_of};
ghost use Rattle.peer_core.specs.Arrived.{least_of};
ghost use Rattle.peer_core.specs.Receipt.{receipt_of};
ghost use Rattle.game_orders.specs.Entry.{same_entry};
ghost use Rattle.game_orders.specs.declared.entry.Entry.TheVariants.{Play, Leave};
ghost use Rattle.std.specs.Option.{option_map, unwrap_or};

use crate::delivered::Delivered;
use crate::plays::Plays;
use crate::receipt::Receipt;
use crate::stored_orders::StoredOrders;
use base::NoMemory;
use frame_core::Input;
use game_orders::{Entry, Frame, MAX_CLIENTS, MAX_FRAMES};
use std::alloc::Global;
use std::marker::Model;

/// What reached a peer of one client: its plays, and perhaps its departure.
#[derive(Drop)]
pub(crate) struct ClientEntries {
    plays: Plays,
    left: Option<u32>,
}

impl Model for ClientEntries {
    ghost use Rattle.peer_core.specs.Entries.{Entries, IsByFrame};

    ghost Value = { Entries };

    ghost view = { λ own. record { plays = own.plays; left = own.left } };

    ghost invariant = { λ own. IsByFrame own.plays };
}

impl ClientEntries {
    /// No entries.
    pub(crate) fn new(alloc: Global) -> ClientEntries
        ensures { result ≡ no_entries }
    {
        ClientEntries {
            plays: Plays::new(alloc),
            left: None,
        }
    }

    /// Whether the departure is kept.
    pub(crate) fn left(&self) -> bool
        ensures { result ≡ is_some self.now.left }
    {
        self.left.is_some()
    }

    /// What the client has for frame `n`, without its orders.
    pub(crate) fn input(&self, n: u32) -> Input
        ensures { result ≡ input_of (own_has (play_at self.now.plays n) self.now.left n) }
    {
        if self.plays.get(n).is_some() {
            return Input::Played;
        }
        match self.left {
            Some(at) if at <= n => Input::Departed,
            _ => Input::Missing,
        }
    }

    /// Adds to a frame what the client has for frame `n`, or a departure where it has nothing.
    #[tactic(auto, using(crate::proofs::EachLemmas::play_or_leave))]
    pub(crate) fn push_to(&self, n: u32, frame: &mut Frame)
        requires { length frame.old < MAX_CLIENTS }
        ensures { frame.new ≡ frame.old
            ++ unwrap_or (own_has (play_at self.now.plays n) self.now.left n) Leave ∷ [] }
    {
        match self.plays.get(n) {
            Some(orders) => frame.push_play(orders.as_slice()),
            None => frame.push(Entry::Leave),
        }
    }

    /// The entry that is kept at frame `n`.
    fn entry(&self, n: u32) -> Option<Entry>
        ensures { result ≡ entry_of (play_at self.now.plays n) self.now.left n }
    {
        if let Some(orders) = self.plays.get(n) {
            return Some(Entry::Play(orders.to_orders()));
        }
        if self.left? == n {
            Some(Entry::Leave)
        } else {
            None
        }
    }

    /// The kept frame that an entry at frame `n` contradicts.
    fn past(&self, n: u32, e: &Entry) -> Option<u32>
        requires { n ≤ MAX_FRAMES }
        ensures { result ≡ own_past self.now n e.now }
    {
        if let Some(at) = if_before(self.left, n) {
            return Some(at);
        }
        if e.is_play() {
            return None;
        }
        lesser(self.plays.first_after(n), if_after(self.left, n))
    }

    /// The answer to an entry at frame `n`.
    fn delivery(&self, n: u32, e: &Entry) -> Delivered
        ensures { result ≡ own_delivery self.now n e.now }
    {
        if MAX_FRAMES < n || (n == MAX_FRAMES && e.is_play()) {
            return Delivered::Beyond;
        }
        if let Some(kept) = self.entry(n) {
            if *e == kept {
                return Delivered::Repeat;
            }
            return Delivered::Conflict(kept);
        }
        match self.past(n, e) {
            Some(at) => Delivered::Past(at),
            None => Delivered::Kept,
        }
    }

    /// Whether an entry is the one that is kept at frame `n`. None exactly where none is.
    fn repeats(&self, n: u32, e: &Entry) -> Option<bool>
        ensures { result ≡ option_map (same_entry e.now)
            (entry_of (play_at self.now.plays n) self.now.left n) }
    {
        if let Some(kept) = self.plays.get(n) {
            return Some(repeats_play(kept, e));
        }
        if self.left? == n {
            Some(!e.is_play())
        } else {
            None
        }
    }

    /// The receipt of an entry at frame `n`.
    fn receipt(&self, n: u32, e: &Entry) -> Receipt
        ensures { result ≡ receipt_of (own_delivery self.now n e.now) }
    {
        if MAX_FRAMES < n || (n == MAX_FRAMES && e.is_play()) {
            return Receipt::Beyond;
        }
        match self.repeats(n, e) {
            Some(true) => return Receipt::Repeat,
            Some(false) => return Receipt::Conflict,
            None => {}
        }
        match self.past(n, e) {
            Some(at) => Receipt::Past(at),
            None => Receipt::Kept,
        }
    }

    /// Keeps one more entry, at its place.
    fn keep(&mut self, n: u32, e: &Entry) -> Result<(), NoMemory>
        requires { play_at self.old.plays n ≡ None }
        ensures kept { OnOk result (self.new ≡ with_entry self.old n e.now) }
        ensures err { OnErr result (self.new ≡ self.old) }
    {
        match e {
            Entry::Play(orders) => self.plays.keep(n, orders)?,
            Entry::Leave => self.left = Some(n),
        }
        Ok(())
    }

    /// Delivers an entry at frame `n`.
    pub(crate) fn deliver(&mut self, n: u32, e: Entry) -> Result<Delivered, NoMemory>
        ensures by_frame { IsByFrame self.old.plays }
        ensures answer { IfOk result (λ answer. answer ≡ own_delivery self.old n e) }
        ensures after { OnOk result (self.new
            ≡ own_after (own_delivery self.old n e) self.old n e) }
        ensures err { OnErr result (self.new ≡ self.old) }
    {
        // a field is named so that the proof has the type's invariant, which `by_frame` passes on
        let _plays = &self.plays;
        let answer = self.delivery(n, &e);
        if let Delivered::Kept = answer {
            self.keep(n, &e)?;
        }
        Ok(answer)
    }

    /// Delivers a lent entry at frame `n`.
    pub(crate) fn receive(&mut self, n: u32, e: &Entry) -> Result<Receipt, NoMemory>
        ensures by_frame { IsByFrame self.old.plays }
        ensures answer { IfOk result (λ receipt. receipt
            ≡ receipt_of (own_delivery self.old n e.now)) }
        ensures after { OnOk result (self.new
            ≡ own_after (own_delivery self.old n e.now) self.old n e.now) }
        ensures err { OnErr result (self.new ≡ self.old) }
    {
        // a field is named so that the proof has the type's invariant, which `by_frame` passes on
        let _plays = &self.plays;
        let receipt = self.receipt(n, e);
        if let Receipt::Kept = receipt {
            self.keep(n, e)?;
        }
        Ok(receipt)
    }
}

/// Whether an entry is the play of these orders.
fn repeats_play(kept: &StoredOrders, e: &Entry) -> bool
    ensures { result ≡ same_entry e.now (Play kept.now) }
{
    match e {
        Entry::Play(orders) => kept.is_same(orders),
        Entry::Leave => false,
    }
}

/// The number, if it is below `n`.
fn if_before(number: Option<u32>, n: u32) -> Option<u32>
    ensures { result ≡ if_before number n }
{
    let at = number?;
    if at < n { Some(at) } else { None }
}

/// The number, if it is above `n`.
fn if_after(number: Option<u32>, n: u32) -> Option<u32>
    ensures { result ≡ if_after number n }
{
    let at = number?;
    if n < at { Some(at) } else { None }
}

/// The lesser of two numbers that may be there.
fn lesser(first: Option<u32>, second: Option<u32>) -> Option<u32>
    ensures { result ≡ least_of first second }
{
    match (first, second) {
        (Some(one), Some(other)) => Some(one.min(other)),
        (Some(one), None) => Some(one),
        (None, other) => other,
    }
}
