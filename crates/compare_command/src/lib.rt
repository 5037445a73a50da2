//! The command `compare`: where two saves, or two replays, differ.
//!
//! [`compare_answer`] reads two files and answers a line for each difference. What the differences
//! of two saves are is in `specs/Saves.antt`, those of two replays in `specs/Replays.antt`, their
//! lines in `specs/Lines.antt`, and the reply with its refusals in `specs/Comparing.antt`. It takes
//! time in proportion to the files, and memory beside them for what they hold and for the text.
//!
//! Laws (`src/law.rt`) say that two saves have no difference exactly where they are equal, and two
//! replays exactly where they have the same seed, clients and frames and no marks that differ; and
//! that the differing entries are those of the first frame that differs, and each line is true of
//! the two files.
#![tactic(auto)]

mod actors;
mod comparing;
mod difference_lines;
mod entry_words;
mod found;
mod items;
mod joined_words;
mod law;
mod replays;
mod same;
mod saves;
mod subject;
mod values;
mod walk;
mod words;

pub use comparing::compare_answer;
pub use law::{
    each_line_is_true, equal_saves_have_no_difference, replays_of_one_match_have_no_difference,
    the_least_frame_differs,
};
