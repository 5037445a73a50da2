//! Replays: the frames of a match, and marks by which a later run is compared.
//!
//! A [`Replay`] has one spelling (`specs/ReplayBytes.antt`, `specs/PartBytes.antt`), numbers with
//! the lowest byte first and orders and entries as everywhere else:
//!
//! | Part | Bytes |
//! |---|---|
//! | header: `LSRP` | 4 |
//! | version, rules number, seed, clients | 2, 8, 4, 1 |
//! | a frame: 1, and an entry for each client | 1 |
//! | an entry: 0 for a departure | 1 |
//! | or 1, the number of orders, the orders | 1, 1, 2 to 10 each |
//! | a mark: 2, the hash of the world after the frames so far | 1, 8 |
//! | the end: 0 | 1 |
//!
//! [`write_replay`] writes it. [`read_replay`] reads this version and the first, and answers
//! exactly the replay whose spelling the bytes are, or their first fault with its place
//! (`specs/FirstFault.antt`). What is valid says `specs/ValidReplay.antt`, part by part, and a law
//! says it of the frames and marks as a whole (`specs/RuleLaws.antt`).
//!
//! [`Parts`] holds the parts in about as many bytes as a file has; a [`PartCursor`] hands them out
//! one by one, frames in the room of one that the caller keeps, and a [`ReplayCursor`] does so and
//! owns the replay. [`read_entries`] reads the entries of one frame, as they stand in a file, from
//! any bytes. What a replay is to a game, its frames in order and how many stand before each mark,
//! is in `specs/Frames.antt`, and the replay that replaces it in the version that is written in
//! `specs/Migrated.antt`.
#![tactic(auto)]

mod departed;
mod header;
mod header_reading;
mod law;
mod limits;
mod part;
mod part_cursor;
mod part_fault;
mod part_fits;
mod part_kind;
mod part_reading;
mod part_writing;
mod parts;
mod replay;
mod replay_cursor;
mod replay_fault;
mod replay_reading;
mod replay_writer;
mod replay_writing;
mod standing;

pub use law::{
    a_migrated_replay_is_valid, bytes_are_read_as_they_spell, bytes_have_one_first_fault,
    bytes_spell_one_replay, the_rules_are_these,
};
pub use limits::{FIRST_MAX_CLIENTS, FIRST_MAX_FRAMES, FIRST_VERSION, GREATEST_TAG, VERSION};
pub use part::Part;
pub use part_cursor::PartCursor;
pub use part_fault::PartFault;
pub use part_kind::PartKind;
pub use part_reading::read_entries;
pub use parts::Parts;
pub use replay::Replay;
pub use replay_cursor::ReplayCursor;
pub use replay_fault::ReplayFault;
pub use replay_reading::read_replay;
pub use replay_writer::ReplayWriter;
pub use replay_writing::{replay_fits, write_replay};
