ghost use Rattle.std.specs.Prelude.{◌≡◌, ◌≢◌, ◌≤◌, ◌++◌, ℕ, List, Some, length, slice_get};
ghost use Rattle.datagram_link.specs.Sender.{acked_answer};
ghost use Rattle.datagram_link.specs.Receiver.{arrival_answer};
ghost use Rattle.datagram_link.specs.declared.acked.Acked.TheVariants.{Unsent};
ghost use Rattle.datagram_link.specs.declared.arrived.Arrived.TheVariants.{TooFar};
ghost use Rattle.datagram_link.specs.declared.datagram.Datagram.TheVariants.{Data, Ack};
ghost use Rattle.datagram_schedule.specs.declared.event.Event.{Event};
ghost use Rattle.datagram_schedule.specs.Exchange.{nothing_exchanged, exchanged, exchange_outcome};
ghost use Rattle.datagram_schedule.specs.Schedule.{nothing_scheduled, scheduled, delivered};
ghost use Rattle.datagram_schedule.specs.Schedule.{outcome_of};

/// A law of links over datagrams, of every schedule: whatever is lost, repeated and reordered, what
/// the receiver brought into order is the payloads of the longest run of numbers from 0 on that all
/// arrived, and so a prefix of what was offered, each payload once. The call does nothing.
pub fn payloads_come_once_and_in_order()
    ensures delivered { (events : List Event) →
        (exchanged events nothing_exchanged).receiver.ready
        ≡ delivered (scheduled events nothing_scheduled) }
    ensures prefix { (events : List Event) → (rest : List (List ℕ)) ×
        ((exchanged events nothing_exchanged).receiver.ready ++ rest
        ≡ (scheduled events nothing_scheduled).offered) }
{}

/// A law of links over datagrams, of every schedule: what the sender counts as acknowledged was
/// delivered. The call does nothing.
pub fn what_is_acknowledged_was_delivered()
    ensures { (events : List Event) → (exchanged events nothing_exchanged).sender.acknowledged
        ≤ length (exchanged events nothing_exchanged).receiver.ready }
{}

/// A law of links over datagrams, of every schedule: whichever datagram in the air comes next, the
/// receiver does not answer that it is too far, nor the sender that it was not sent. The call does
/// nothing.
pub fn nothing_comes_from_the_future()
    ensures near { (events : List Event) (gram number : ℕ) (payload : List ℕ) →
        slice_get (exchanged events nothing_exchanged).air gram ≡ Some (Data number payload) →
        arrival_answer (exchanged events nothing_exchanged).receiver number payload ≢ TooFar }
    ensures sent { (events : List Event) (gram next : ℕ) →
        slice_get (exchanged events nothing_exchanged).air gram ≡ Some (Ack next) →
        acked_answer (exchanged events nothing_exchanged).sender next ≢ Unsent }
{}

/// A law of links over datagrams, of every schedule: the outcome of the next event is that of sets
/// and lists. The call does nothing.
pub fn each_outcome_is_that_of_the_schedule()
    ensures { (events : List Event) (event : Event) →
        exchange_outcome (exchanged events nothing_exchanged) event
        ≡ outcome_of (scheduled events nothing_scheduled) event }
{}
