//! Lists of small numbers, packed into words of 64 bits.
//!
//! [`Bits`] holds flags, 64 to a word, and [`Nibbles`] numbers below 16, 16 to a word. Two lists
//! are compared, and one takes the contents of another, word by word. Contracts see the list.
#![tactic(auto)]

mod bits;
mod digit;
mod nibbles;
mod words;

pub use bits::Bits;
pub use nibbles::{MAX_NIBBLE, Nibbles};
