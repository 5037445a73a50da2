//! Tests of how a match is recorded, and its replay run, migrated and gone on from.
//! They use what their crates make public.
#![tactic(auto)]

#[cfg(test)]
mod replays;
