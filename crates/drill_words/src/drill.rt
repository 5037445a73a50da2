ghost use Rattle.std.specs.Prelude.{◌≡◌, ◌≤◌, true, length};
ghost use Rattle.std.specs.List.{list_all};
ghost use Rattle.drill_words.specs.Event.{event_fits};
ghost use Rattle.drill_words.specs.declared.limits.TheConstants.{MAX_EVENTS};
ghost use Rattle.game_orders.specs.declared.limits.TheConstants.{MAX_CLIENTS, MAX_LAG};

use crate::event_list::EventList;
use crate::limits::MAX_EVENTS;
use game_orders::{MAX_CLIENTS, MAX_LAG};

/// A written schedule of one match. Its numbers are within the limits of a match, and its events
/// name only peers and clients of the match. The receiver of a donation may be any number up to
/// 255.
pub struct Drill {
    /// The number of clients, 1 to `MAX_CLIENTS`.
    pub clients: u8,
    /// How far a client may seal ahead of its ticked frames, 1 to `MAX_LAG`.
    pub lag: u8,
    /// The seed of the opening world, any `u32`.
    pub seed: u32,
    /// The events in order, at most [`MAX_EVENTS`].
    pub events: EventList,
    ghost least_clients: { 1 ≤ clients },
    ghost most_clients: { clients ≤ MAX_CLIENTS },
    ghost least_lag: { 1 ≤ lag },
    ghost most_lag: { lag ≤ MAX_LAG },
    ghost most_events: { length events ≤ MAX_EVENTS },
    ghost fit: { list_all (event_fits clients) events ≡ true },
}

// By hand, so that what drops one needs no proof of how its parts are dropped.
impl Drop for Drill {
    fn drop(self) {
        let Self {
            clients: _,
            lag: _,
            seed: _,
            events: _,
        } = self;
    }
}
