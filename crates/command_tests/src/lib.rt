//! Tests of `match_commands` and `replay_commands` that are no recorded command lines of
//! `case_runs`: the numbers of rules and maps, files of the greatest length, and a server and two
//! players in one process.
//!
//! They stand apart from the crates, so that their proofs need not be done again with them.
#![tactic(auto)]

#[cfg(test)]
mod long_files;
#[cfg(test)]
mod loopback;
#[cfg(test)]
mod numbers;
