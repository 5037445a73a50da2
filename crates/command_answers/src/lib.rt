//! What a command of the program answers, and the files that it reads.
//!
//! A [`Reply`](../specs/Reply.antt) is a status, a text, and a file that is written after it. A
//! command is a sequence of steps ([`Stop`] in code, `specs/Step.antt` in definitions): each has a
//! value, or ends the command with a reply. [`read_rules`], [`read_files`], [`read_played_files`],
//! [`read_paired_files`] and [`read_compared_files`] read what a command names, and [`print_text`],
//! [`print_stop`] and [`refuse_words`] print its answer; their clauses say what was read and
//! printed over any disk and any sink, whichever of their calls fail.
#![tactic(auto)]

mod answer;
mod files;
mod paired;
mod print;
mod script_stop;
mod statuses;
mod stop;
mod writing;

pub use answer::{Answer, FileBytes};
pub use files::{
    GivenFiles, InputFile, MAX_REPLAY_BYTES, MAX_RULE_BYTES, MAX_SAVE_BYTES, read_files, read_one,
    read_played_files, read_rules,
};
pub use paired::{
    ComparedFiles, PairedFiles, begins_save, is_too_long, read_compared_files, read_paired_files,
};
pub use print::{print_last, print_stop, print_text, refuse_words};
pub use script_stop::drill_stop;
pub use statuses::{
    DONE, FAULT_READ, FAULT_WRITE, MARK_DIFFERS, OUT_OF_MEMORY, REFUSED_FILE, REFUSED_WORDS,
};
pub use stop::Stop;
pub use writing::{print_answer, write_last};
