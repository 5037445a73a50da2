//! Tests of `command_words`: command lines with the request that they name.
//!
//! They stand apart from the crate, so that its proofs need not be done again with them.
#![tactic(auto)]

#[cfg(test)]
mod lines;
#[cfg(test)]
mod tests;
