//! Drills: written network schedules of one match, and the report of running one.
//!
//! It stands on the schedules that `drill_words` reads, the peers of `peer_core`, the server of
//! `server_core`, the sinks of `game_io` and the random words of `twister`. `run_drill` runs the
//! events, for any maker of worlds, and writes the report: the outcome of each event, and every
//! world at the end. Its clause, `Reports` in `specs/Drilled.antt`, says that the report is the one
//! of the definitions in `specs/Report.antt`, which know no peer's world: every world is the agreed
//! world of its own count of ticked frames. `run_without_report` hands back the same, and makes no
//! report.
//!
//! `made_drill` makes a drill from a number: four clients play orders by the draws of `twister`
//! over a network that loses, repeats and delays. Its definition, `specs/MadeDrill.antt`, is a
//! chain of steps on a draft (`specs/Draft.antt`), round by round (`specs/MadeRound.antt`).
#![tactic(auto)]

mod adding;
mod closing;
mod draft;
mod drilled;
mod entering;
mod event_lines;
mod laws;
mod made;
mod made_limits;
mod made_orders;
mod made_round;
mod opening;
mod outcome;
mod packet_view;
mod peers;
mod run;
mod run_fault;
mod running_match;
mod sent;
mod sent_view;
mod text;

pub use adding::{add_alarms, add_columns, add_hash, add_world};
pub use closing::closing_lines;
pub use drill_words::{Drill, Event, EventList, MAX_EVENTS};
pub use drilled::Drilled;
pub use entering::Entering;
pub use laws::{
    columns_only_grow, departures_were_told, entries_arrive_when_found, first_reports_are_kept,
    peers_tick_when_told, plays_were_sealed,
};
pub use made::{made_drill, made_drills_are_read};
pub use made_limits::{
    DEPARTURE_ROUND, DRAWN_ACTORS, DRAWN_CASH, DRAWN_KINDS, DRAWN_SIDE, LOSS_CHOICES, MADE_CLIENTS,
    MADE_LAG, MADE_ROUNDS, ORDER_CHOICES,
};
pub use outcome::Outcome;
pub use peers::Peers;
pub use run::{run_drill, run_without_report};
pub use run_fault::RunFault;
pub use text::{add_end_line, add_server_head};
