//! What reading bytes as a save comes to.

use game_model::Map;
use game_save::{SaveFault, read_save, write_save};
use rule_traits::Rules;
use std::alloc::{AllocError, Global};

/// What reading comes to, and writing what was read.
#[derive(Drop)]
pub(crate) enum Outcome {
    /// The save is read, and written again with the same bytes.
    Same,
    /// The save is read, and written again with other bytes.
    Other,
    /// The bytes are refused.
    Refused(SaveFault),
}

/// Reads bytes as a save, and writes it again.
pub(crate) fn read_again(
    alloc: Global,
    bytes: &[u8],
    here: u64,
    rules: &Rules,
    map: &Map,
) -> Result<Outcome, AllocError> {
    match read_save(alloc, bytes, here, rules, map) {
        Ok(saved) => {
            let again = write_save(alloc, rules, map, here, saved.frames, &saved.world)?;
            if again.as_slice() == bytes {
                Ok(Outcome::Same)
            } else {
                Ok(Outcome::Other)
            }
        }
        Err(fault) => Ok(Outcome::Refused(fault)),
    }
}

/// The outcome as text.
pub(crate) fn printed(alloc: Global, outcome: &Outcome) -> Result<String, AllocError> {
    let mut out = String::new(alloc);
    match outcome {
        Outcome::Same => write!(out, "same")?,
        Outcome::Other => write!(out, "other bytes")?,
        Outcome::Refused(fault) => {
            let cause = fault.cause();
            match fault.place() {
                Some(at) => write!(out, "{cause} {at}")?,
                None => write!(out, "{cause}")?,
            }
        }
    }
    Ok(out)
}
