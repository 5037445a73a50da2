//! What every crate of the core shares, and the only crate that stands on none of them.
//!
//! It has the error where memory runs out, the count of faults by which an object of the outside
//! gives the cause of a failed call, the reading of a number in decimal digits, and in `specs/` the
//! words for causes, for what was written, for steps that may fail, and for lines.
#![tactic(auto)]

mod fault_count;
mod list;
mod numbers;

pub use fault_count::FaultCount;
pub use list::List;
pub use numbers::{MAX_DIGITS, read_number};

/// Out of memory: the one answer of a call that its clauses leave free.
pub type NoMemory = std::alloc::AllocError;
