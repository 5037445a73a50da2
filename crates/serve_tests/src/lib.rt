//! Tests of `match_serve`: matches over links in memory.
//! They use what the crate makes public.
#![tactic(auto)]

#[cfg(test)]
mod ahead;
#[cfg(test)]
mod held;
#[cfg(test)]
mod kicked;
#[cfg(test)]
mod links;
#[cfg(test)]
mod logs;
#[cfg(test)]
mod serving;
