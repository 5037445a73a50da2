ghost use Rattle.std.specs.Prelude.{◌≡◌, ◌∷◌, [], length, MatchOption, OnErr, IfOk};
ghost use Rattle.datagram_link.specs.Receiver.{nothing_arrived, has_arrived, is_too_far};
ghost use Rattle.datagram_link.specs.Receiver.{arrival_answer, after_arrival};

use crate::arrived::Arrived;
use crate::limits::{MAX_PAYLOADS, WINDOW};
use crate::payload::Payload;
use crate::window::{Places, empty_places, move_on, put_payload};
use base::NoMemory;
use std::alloc::Global;
use std::collections::VecDeque;
use std::marker::Model;

/// The receiving half of a link: how many payloads came into order, those of the next [`WINDOW`]
/// numbers that came, and those in order that are still to be popped.
#[derive(Drop)]
pub struct Receiver {
    next: u32,
    window: Places,
    ready: VecDeque<Payload>,
}

impl Model for Receiver {
    ghost use Rattle.datagram_link.specs.Receiver.{ReceiverState, IsReceiver};

    ghost Value = { ReceiverState };

    ghost view = { λ r. record {
      next = r.next;
      window = r.window.items;
      ready = r.ready.items;
    } };

    ghost invariant = { λ r. IsReceiver r.next r.window.items };
}

impl Receiver {
    /// A receiver to which nothing came. It fails only where it is out of memory.
    pub fn create(alloc: Global) -> Result<Receiver, NoMemory>
        ensures { IfOk result (λ receiver. receiver ≡ nothing_arrived) }
    {
        let window = empty_places(alloc)?;
        Ok(Receiver {
            next: 0,
            window,
            ready: VecDeque::new(alloc),
        })
    }

    /// How many payloads came into order: the number of the next.
    pub fn next(&self) -> u32
        ensures { result ≡ self.now.next }
    {
        self.next
    }

    /// True where the payload with this number came.
    fn has_arrived(&self, number: u32) -> bool
        ensures { result ≡ has_arrived self.now number }
    {
        if number < self.next {
            return true;
        }
        match self.window.get((number - self.next) as usize) {
            Some(place) => place.is_some(),
            None => false,
        }
    }

    /// True where the number is beyond the window, or is that of no payload.
    fn is_too_far(&self, number: u32) -> bool
        ensures { result ≡ is_too_far self.now number }
    {
        u64::from(number) >= u64::from(self.next) + u64::from(WINDOW) || number == MAX_PAYLOADS
    }

    /// Takes a copy of the payload with this number.
    ///
    /// `Repeat` exactly where the number has arrived, `TooFar` exactly where it is `next()` +
    /// [`WINDOW`] or more, or [`MAX_PAYLOADS`], `Kept` where it is not the next one, else
    /// `Delivered` with how many payloads came into order. It fails only where it is out of memory,
    /// and then nothing changes.
    pub fn arrived(
        &mut self,
        alloc: Global,
        number: u32,
        payload: &[u8],
    ) -> Result<Arrived, NoMemory>
        ensures answer { IfOk result (λ arrived. arrived
            ≡ arrival_answer self.old number payload.now) }
        ensures after { IfOk result (λ _. self.new ≡ after_arrival self.old number payload.now) }
        ensures places { length self.new.window ≡ WINDOW }
        ensures err { OnErr result (self.new ≡ self.old) }
    {
        if self.has_arrived(number) {
            return Ok(Arrived::Repeat);
        }
        if self.is_too_far(number) {
            return Ok(Arrived::TooFar);
        }
        let copy = Payload::copy_of(alloc, payload)?;
        if number != self.next {
            put_payload(&mut self.window, (number - self.next) as usize, copy);
            return Ok(Arrived::Kept);
        }
        self.ready.reserve(WINDOW as usize)?;
        put_payload(&mut self.window, 0, copy);
        let count = move_on(&mut self.window, &mut self.ready);
        self.next += count;
        Ok(Arrived::Delivered(count))
    }

    /// Takes the first of the payloads in order that were not popped yet. None exactly where all
    /// were.
    pub fn pop(&mut self) -> Option<Payload>
        ensures next { self.new.next ≡ self.old.next }
        ensures window { self.new.window ≡ self.old.window }
        ensures ready { MatchOption result ((self.old.ready ≡ []) × (self.new.ready ≡ []))
            (λ payload. self.old.ready ≡ payload ∷ self.new.ready) }
    {
        self.ready.pop_front()
    }
}
