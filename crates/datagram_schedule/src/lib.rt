//! Schedules of a link over datagrams: which payloads are offered, which datagrams are put into the
//! air, and which of them arrive, in any order, once, often or never.
//!
//! An [`Exchange`] has a sender, a receiver and the air between them, and does what each [`Event`]
//! says (`specs/Exchange.antt`). Beside it stands what the same events leave as sets and lists
//! (`specs/Schedule.antt`): the payloads offered, the datagrams in the air, the numbers that
//! arrived, the highest acknowledgement that arrived. The laws say, of every schedule, that both
//! agree, and what a link guarantees.
#![tactic(auto)]

mod event;
mod exchange;
mod law;
mod outcome;
mod payload_view;

pub use event::Event;
pub use exchange::Exchange;
pub use law::{
    each_outcome_is_that_of_the_schedule, nothing_comes_from_the_future,
    payloads_come_once_and_in_order, what_is_acknowledged_was_delivered,
};
pub use outcome::Outcome;
pub use payload_view::PayloadView;
