//! Tests of links over datagrams, by what their crate makes public.
#![tactic(auto)]

#[cfg(test)]
mod turns;
