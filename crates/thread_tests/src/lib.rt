//! Tests of what threads share: tables of frames, queues of reports, matches on threads.
//! They use what their crates make public.
#![tactic(auto)]

#[cfg(test)]
mod matches;
#[cfg(test)]
mod reports;
#[cfg(test)]
mod tables;
