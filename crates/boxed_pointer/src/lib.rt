//! A box as its pointer, and the box again.
//!
//! [`Loose`] holds the pointer of a box and its allocator, and owns what the box owned: the value
//! behind the pointer, and the right to free its block. Whoever hands a value to code that knows
//! only pointers takes the box apart here, and puts it together again once the pointer comes back.
#![tactic(auto)]

mod loose;

pub use loose::Loose;
