ghost use Rattle.std.specs.Prelude.{◌≡◌, ◌+◌, ◌<◌, ◌≤◌, [], length, drop, option_map, slice_index_or};
ghost use Rattle.std.specs.Prelude.{OnErr, IfOk};
ghost use Rattle.datagram_link.specs.Grams.{IsPayload};
ghost use Rattle.datagram_link.specs.Sender.{nothing_offered, offered_count, offer_answer};
ghost use Rattle.datagram_link.specs.Sender.{after_offer, due_of, acked_answer, after_acked};

use crate::acked::Acked;
use crate::limits::{MAX_PAYLOADS, WINDOW};
use crate::offered::Offered;
use crate::payload::Payload;
use base::NoMemory;
use std::alloc::Global;
use std::collections::VecDeque;
use std::marker::Model;

/// The sending half of a link: the payloads that are not acknowledged yet, at most [`WINDOW`] of
/// them, and how many were acknowledged before. Payloads are numbered from 0 in the order in which
/// they are offered.
#[derive(Drop)]
pub struct Sender {
    acknowledged: u32,
    waiting: VecDeque<Payload>,
}

impl Model for Sender {
    ghost use Rattle.std.specs.Prelude.{◌+◌, ◌≤◌, length};
    ghost use Rattle.std.specs.List.{All};
    ghost use Rattle.datagram_link.specs.declared.limits.TheConstants.{WINDOW, MAX_PAYLOADS};
    ghost use Rattle.datagram_link.specs.Grams.{IsPayload};
    ghost use Rattle.datagram_link.specs.Sender.{SenderState};

    ghost Value = { SenderState };

    ghost view = { λ s. record { acknowledged = s.acknowledged; waiting = s.waiting.items } };

    ghost invariant = { λ s. (s.acknowledged + length s.waiting.items ≤ MAX_PAYLOADS)
        × (length s.waiting.items ≤ WINDOW) × All IsPayload s.waiting.items };
}

impl Sender {
    /// A sender that was offered nothing. It fails only where it is out of memory.
    pub fn create(alloc: Global) -> Result<Sender, NoMemory>
        ensures { IfOk result (λ sender. sender ≡ nothing_offered) }
    {
        Ok(Sender {
            acknowledged: 0,
            waiting: VecDeque::with_capacity(alloc, WINDOW as usize)?,
        })
    }

    /// How many payloads were offered and taken: the number of the next.
    pub fn offered(&self) -> u32
        ensures { result ≡ offered_count self.now }
    {
        self.acknowledged + self.waiting.len() as u32
    }

    /// How many payloads were acknowledged.
    pub fn acknowledged(&self) -> u32
        ensures { result ≡ self.now.acknowledged }
    {
        self.acknowledged
    }

    /// Takes a copy of a payload of 1 to [`crate::MAX_PAYLOAD`] bytes.
    ///
    /// `Spent` exactly where [`MAX_PAYLOADS`] were offered, then `WindowFull` exactly where
    /// [`WINDOW`] are unacknowledged, else `Taken` with its number. It fails only where it is out of
    /// memory, and then nothing changes.
    pub fn offer(&mut self, alloc: Global, payload: &[u8]) -> Result<Offered, NoMemory>
        requires { IsPayload payload.now }
        ensures answer { IfOk result (λ offered. offered ≡ offer_answer self.old) }
        ensures after { IfOk result (λ _. self.new ≡ after_offer self.old payload.now) }
        ensures few { length self.new.waiting ≤ WINDOW }
        ensures err { OnErr result (self.new ≡ self.old) }
    {
        let number = self.offered();
        if number == MAX_PAYLOADS {
            return Ok(Offered::Spent);
        }
        if self.waiting.len() == WINDOW as usize {
            return Ok(Offered::WindowFull);
        }
        let copy = Payload::copy_of(alloc, payload)?;
        self.waiting.push_back(copy)?;
        Ok(Offered::Taken(number))
    }

    /// The number and the payload of the `i`-th unacknowledged, from 0. None exactly where there are
    /// not so many.
    pub fn due(&self, i: u32) -> Option<(u32, &[u8])>
        ensures due { option_map (λ due. (due.0, due.1.now)) result ≡ due_of self.now i }
    {
        let payload = self.waiting.get(i as usize)?;
        Some((self.acknowledged + i, payload.as_slice()))
    }

    /// How many payloads are unacknowledged, at most [`WINDOW`].
    pub(crate) fn waiting(&self) -> u32
        ensures { result ≡ length self.now.waiting }
    {
        self.waiting.len() as u32
    }

    /// The number and the payload of the `i`-th unacknowledged, where there are so many.
    pub(crate) fn due_at(&self, i: u32) -> (u32, &[u8])
        requires { i < length self.now.waiting }
        ensures number { result.0 ≡ self.now.acknowledged + i }
        ensures payload { result.1.now ≡ slice_index_or self.now.waiting i [] }
        ensures fits { IsPayload result.1.now }
    {
        let payload = &self.waiting[i as usize];
        (self.acknowledged + i, payload.as_slice())
    }

    /// Takes an acknowledgement: each payload with a number below `next` came.
    ///
    /// `Unsent` exactly where `next` is above the number offered, `Old` exactly where it is at most
    /// the number acknowledged, else `Freed` with how many are acknowledged by it.
    pub fn acked(&mut self, next: u32) -> Acked
        ensures answer { result ≡ acked_answer self.old next }
        ensures after { self.new ≡ after_acked self.old next }
    {
        if next > self.offered() {
            return Acked::Unsent;
        }
        if next <= self.acknowledged {
            return Acked::Old;
        }
        let count = next - self.acknowledged;
        pop_first(&mut self.waiting, count);
        self.acknowledged = next;
        Acked::Freed(count)
    }
}

/// Lets the first payloads go, so many of them.
fn pop_first(waiting: &mut VecDeque<Payload>, count: u32)
    requires { count ≤ length waiting.old.items }
    ensures { waiting.new.items ≡ drop count waiting.old.items }
{
    for _place in 0..count {
        waiting.pop_front();
    }
}
