//! A drill that is being made.
ghost use Rattle.std.specs.Prelude.{◌≡◌, ◌+◌, ◌<◌, ◌≤◌, true, OnOk};
ghost use Rattle.std.specs.List.{list_all};
ghost use Rattle.drill_words.specs.Event.{event_fits};
ghost use Rattle.drill.specs.Draft.{fresh_draft, with_event, with_packet, with_seal, size};
ghost use Rattle.drill.specs.Draft.{with_event_unless_lost};

use crate::made_limits::{LOSS_CHOICES, MADE_CLIENTS};
use crate::made_orders::draw_orders;
use base::NoMemory;
use drill_words::{Event, EventList, MAX_EVENTS};
use std::alloc::Global;
use std::marker::Model;
use twister::Twister;

/// The events so far of a drill that is being made, each of which fits it.
#[derive(Drop)]
pub(crate) struct Draft {
    dice: Twister,
    /// How many packets were sent up.
    sent: u32,
    events: EventList,
}

impl Model for Draft {
    ghost use Rattle.std.specs.Prelude.{◌≡◌, true};
    ghost use Rattle.std.specs.List.{list_all};
    ghost use Rattle.drill_words.specs.Event.{event_fits};
    ghost use Rattle.drill.specs.Draft.{DraftState};
    ghost use Rattle.drill.specs.declared.made_limits.TheConstants.{MADE_CLIENTS};

    ghost Value = { DraftState };

    ghost view = { λ draft. record {
      dice = draft.dice;
      sent = draft.sent;
      events = draft.events;
    } };

    ghost invariant = { λ draft.
        list_all (event_fits MADE_CLIENTS) draft.events ≡ true };
}

impl Draft {
    /// No events, and the random words of a seed.
    pub(crate) fn new(alloc: Global, seed: u32) -> Draft
        ensures { result ≡ fresh_draft seed }
    {
        Draft {
            dice: Twister::seeded(seed),
            sent: 0,
            events: EventList::new(alloc),
        }
    }

    /// How many packets were sent up.
    pub(crate) fn sent(&self) -> u32
        ensures { result ≡ self.now.sent }
    {
        self.sent
    }

    /// The events, each of which fits the drill.
    pub(crate) fn into_events(self) -> EventList
        ensures events { result ≡ self.events }
        ensures fit { list_all (event_fits MADE_CLIENTS) result ≡ true }
    {
        self.events
    }

    /// The event comes next. It fails only where it is out of memory, as all that follow.
    #[tactic(auto, using(crate::proofs::DraftLemmas::one_more_event))]
    pub(crate) fn add(&mut self, event: Event) -> Result<(), NoMemory>
        requires fits { event_fits MADE_CLIENTS event ≡ true }
        ensures made { OnOk result (self.new ≡ with_event event self.old) }
        ensures few { OnOk result (size self.new ≤ size self.old + 1) }
    {
        self.events.push(event)
    }

    /// An event comes next that sends a packet up.
    #[tactic(auto, using(crate::proofs::DraftLemmas::one_more_event))]
    pub(crate) fn add_packet(&mut self, event: Event) -> Result<(), NoMemory>
        requires fits { event_fits MADE_CLIENTS event ≡ true }
        requires room { size self.old + 2 ≤ MAX_EVENTS }
        ensures made { OnOk result (self.new ≡ with_packet event self.old) }
        ensures few { OnOk result (size self.new ≤ size self.old + 2) }
    {
        self.events.push(event)?;
        self.sent += 1;
        Ok(())
    }

    /// The client seals its next frame, with drawn orders.
    pub(crate) fn add_seal(&mut self, client: u8) -> Result<(), NoMemory>
        requires own { client < MADE_CLIENTS }
        requires room { size self.old + 6 ≤ MAX_EVENTS }
        ensures made { OnOk result (self.new ≡ with_seal client self.old) }
        ensures few { OnOk result (size self.new ≤ size self.old + 6) }
    {
        let orders = draw_orders(&mut self.dice);
        self.add_packet(Event::Seal {
            peer: client,
            orders,
        })
    }

    /// The event comes next, unless a draw loses what it brings.
    pub(crate) fn add_unless_lost(&mut self, event: Event) -> Result<(), NoMemory>
        requires fits { event_fits MADE_CLIENTS event ≡ true }
        requires room { size self.old + 2 ≤ MAX_EVENTS }
        ensures made { OnOk result (self.new ≡ with_event_unless_lost event self.old) }
        ensures few { OnOk result (size self.new ≤ size self.old + 2) }
    {
        if self.dice.below(LOSS_CHOICES) == 0 {
            return Ok(());
        }
        self.add(event)
    }
}
