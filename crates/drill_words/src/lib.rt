//! The text of drills, written network schedules of one match, and of scripts, which are what each
//! client of a match plays.
//!
//! `read_drill` returns the [`Drill`] that a file's bytes write, or the first fault with its line,
//! and `read_script` the [`Scripts`] with the seed. Both take the kept lines of a text from
//! [`KeptLines`] and their words from a [`WordCursor`], as any other text of such lines may:
//! [`fault_at`] puts the line to the fault of a word.
//!
//! The crate stands on `base` for lines and numbers, on `game_orders` for orders and the limits of
//! a match, and on `frame_core` for lists of plays. Its definitions go from the text inward: the
//! kept lines and their words (`specs/KeptLine.antt`, `specs/Words.antt`), how words are read
//! (`specs/Read.antt`), the line of a match and of an event (`specs/MatchLine.antt`,
//! `specs/EventLine.antt`), and the whole file (`specs/Drill.antt`; of a script
//! `specs/ScriptLine.antt` and `specs/Script.antt`). The canonical text of a drill
//! (`specs/Text.antt`) is read back as exactly this drill ([`lines_read_back`]), and that of a
//! script as its plays ([`scripts_read_back`]).
#![tactic(auto)]

mod bare_event;
mod drill;
mod drill_fault;
mod event;
mod event_head;
mod event_line;
mod event_list;
mod event_view;
mod event_word;
mod hash;
mod kept_lines;
mod law;
mod limits;
mod match_line;
mod numeral;
mod order_list;
mod order_word;
mod reading;
mod script_line;
mod script_reading;
mod script_words;
mod scripts;
mod seal_orders;
mod word_cursor;
mod word_fault;
mod words;

pub use drill::Drill;
pub use drill_fault::DrillFault;
pub use event::Event;
pub use event_list::EventList;
pub use event_view::EventView;
pub use hash::HASH_DIGITS;
pub use kept_lines::KeptLines;
pub use law::{lines_read_back, scripts_read_back};
pub use limits::{MAX_DRILL_BYTES, MAX_EVENTS};
pub use reading::{fault_at, read_drill};
pub use script_reading::read_script;
pub use scripts::Scripts;
pub use seal_orders::SealOrders;
pub use word_cursor::WordCursor;
pub use word_fault::WordFault;
