//! Tests of how a match stands at its host.
//! They use what their crates make public.
#![tactic(auto)]

#[cfg(test)]
mod standings;
