ghost use Rattle.std.specs.Prelude.{◌≡◌, ◌∷◌, [], MatchOption, IfOk};
ghost use Rattle.datagram_schedule.specs.Exchange.{nothing_exchanged, FitsEvent, offer_outcome};
ghost use Rattle.datagram_schedule.specs.Exchange.{arrival_outcome, acked_outcome, come_outcome};
ghost use Rattle.datagram_schedule.specs.Exchange.{sender_after, receiver_after};
ghost use Rattle.datagram_schedule.specs.Exchange.{exchange_outcome, after_exchange};
ghost use Rattle.datagram_link.specs.Sender.{offered_count};
ghost use Rattle.datagram_schedule.specs.declared.event.Event.TheVariants as Event;

use crate::event::Event;
use crate::outcome::Outcome;
use base::NoMemory;
use datagram_link::{Acked, Arrived, Datagram, Offered, Payload, Receiver, Sender};
use std::alloc::Global;
use std::marker::Model;

/// A sender and a receiver, and the datagrams in the air between them: each that was put there, by
/// its number. What arrives stays in the air, so that it may arrive again.
#[derive(Drop)]
pub struct Exchange {
    sender: Sender,
    receiver: Receiver,
    air: Vec<Datagram>,
}

impl Model for Exchange {
    ghost use Rattle.datagram_schedule.specs.Exchange.{ExchangeState};

    ghost Value = { ExchangeState };

    ghost view = { λ x. record { sender = x.sender; receiver = x.receiver; air = x.air.items } };
}

/// The outcome of an offer.
fn offer_outcome(offered: Offered) -> Outcome
    ensures { result ≡ offer_outcome offered }
{
    match offered {
        Offered::Taken(number) => Outcome::Offered(number),
        Offered::WindowFull | Offered::Spent => Outcome::WindowFull,
    }
}

/// The outcome of a payload that arrived.
fn arrival_outcome(number: u32, arrived: Arrived) -> Outcome
    ensures { result ≡ arrival_outcome number arrived }
{
    match arrived {
        Arrived::Delivered(count) => Outcome::Delivered(count),
        Arrived::Repeat => Outcome::Repeat(number),
        Arrived::Kept | Arrived::TooFar => Outcome::Kept(number),
    }
}

/// The outcome of an acknowledgement that arrived.
fn acked_outcome(acked: Acked) -> Outcome
    ensures { result ≡ acked_outcome acked }
{
    match acked {
        Acked::Freed(count) => Outcome::Freed(count),
        Acked::Old | Acked::Unsent => Outcome::Old,
    }
}

impl Exchange {
    /// An exchange before its first event. It fails only where it is out of memory.
    pub fn create(alloc: Global) -> Result<Exchange, NoMemory>
        ensures { IfOk result (λ x. x ≡ nothing_exchanged) }
    {
        let sender = Sender::create(alloc)?;
        let receiver = Receiver::create(alloc)?;
        Ok(Exchange {
            sender,
            receiver,
            air: Vec::new(alloc),
        })
    }

    /// How many payloads were offered and taken.
    pub fn offered(&self) -> u32
        ensures { result ≡ offered_count self.now.sender }
    {
        self.sender.offered()
    }

    /// How many payloads came into order.
    pub fn delivered(&self) -> u32
        ensures { result ≡ self.now.receiver.next }
    {
        self.receiver.next()
    }

    /// How many payloads the sender counts as acknowledged.
    pub fn acknowledged(&self) -> u32
        ensures { result ≡ self.now.sender.acknowledged }
    {
        self.sender.acknowledged()
    }

    /// Takes the first of the payloads that came into order and were not popped yet. None exactly
    /// where all were.
    pub fn pop(&mut self) -> Option<Payload>
        ensures sender { self.new.sender ≡ self.old.sender }
        ensures next { self.new.receiver.next ≡ self.old.receiver.next }
        ensures ready { MatchOption result
            ((self.old.receiver.ready ≡ []) × (self.new.receiver.ready ≡ []))
            (λ payload. self.old.receiver.ready ≡ payload ∷ self.new.receiver.ready) }
    {
        self.receiver.pop()
    }

    /// Does what an event says, and answers what came of it. It fails only where it is out of
    /// memory; the exchange is not to be used then.
    pub fn take(&mut self, alloc: Global, event: &Event<'_>) -> Result<Outcome, NoMemory>
        requires { FitsEvent event.now }
        ensures outcome { IfOk result (λ outcome. outcome ≡ exchange_outcome self.old event.now) }
        ensures after { IfOk result (λ _. self.new ≡ after_exchange self.old event.now) }
    {
        match event {
            Event::Offer { payload } => {
                let offered = self.sender.offer(alloc, payload.as_slice())?;
                Ok(offer_outcome(offered))
            }
            Event::Send { place } => self.send(alloc, *place),
            Event::Acknowledge => self.acknowledge(),
            Event::Arrive { gram } => self.arrive(alloc, *gram),
        }
    }

    /// Puts a payload that is unacknowledged into the air.
    fn send(&mut self, alloc: Global, place: u32) -> Result<Outcome, NoMemory>
        ensures outcome { IfOk result (λ outcome. outcome
            ≡ exchange_outcome self.old (Event.Send place)) }
        ensures after { IfOk result (λ _. self.new ≡ after_exchange self.old (Event.Send place)) }
    {
        let Some((number, payload)) = self.sender.due(place) else {
            return Ok(Outcome::NoneDue);
        };
        let payload = Payload::copy_of(alloc, payload)?;
        let gram = self.air.len();
        self.air.push(Datagram::Data { number, payload })?;
        Ok(Outcome::Sent(gram))
    }

    /// Puts an acknowledgement into the air.
    fn acknowledge(&mut self) -> Result<Outcome, NoMemory>
        ensures outcome { IfOk result (λ outcome. outcome
            ≡ exchange_outcome self.old Event.Acknowledge) }
        ensures after { IfOk result (λ _. self.new ≡ after_exchange self.old Event.Acknowledge) }
    {
        let gram = self.air.len();
        let next = self.receiver.next();
        self.air.push(Datagram::Ack { next })?;
        Ok(Outcome::Acknowledged { gram, next })
    }

    /// A datagram in the air arrives.
    fn arrive(&mut self, alloc: Global, gram: u32) -> Result<Outcome, NoMemory>
        ensures outcome { IfOk result (λ outcome. outcome
            ≡ exchange_outcome self.old (Event.Arrive gram)) }
        ensures after { IfOk result (λ _. self.new ≡ after_exchange self.old (Event.Arrive gram)) }
    {
        match self.air.get(gram as usize) {
            None => Ok(Outcome::NoDatagram),
            Some(datagram) => come(alloc, &mut self.sender, &mut self.receiver, datagram),
        }
    }
}

/// A datagram comes to the half that it is for.
fn come(
    alloc: Global,
    sender: &mut Sender,
    receiver: &mut Receiver,
    datagram: &Datagram,
) -> Result<Outcome, NoMemory>
    ensures outcome { IfOk result (λ outcome. outcome
        ≡ come_outcome sender.old receiver.old datagram.now) }
    ensures sender { IfOk result (λ _. sender.new ≡ sender_after sender.old datagram.now) }
    ensures receiver { IfOk result (λ _. receiver.new ≡ receiver_after receiver.old datagram.now) }
{
    match datagram {
        Datagram::Data { number, payload } => {
            let arrived = receiver.arrived(alloc, *number, payload.as_slice())?;
            Ok(arrival_outcome(*number, arrived))
        }
        Datagram::Ack { next } => Ok(acked_outcome(sender.acked(*next))),
        Datagram::Call | Datagram::Here { .. } => Ok(Outcome::NoDatagram),
    }
}
