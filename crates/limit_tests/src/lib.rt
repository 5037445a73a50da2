//! Tests of the numbers of limits. They use what their crates make public.
#![tactic(auto)]

#[cfg(test)]
mod limits;
