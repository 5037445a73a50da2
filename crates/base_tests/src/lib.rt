//! Tests of the lowest crates: numbers, lists, fields, units, queues, and the words of a seed.
//! They use what their crates make public.
#![tactic(auto)]

#[cfg(test)]
mod fields;
#[cfg(test)]
mod packed;
#[cfg(test)]
mod pauses;
#[cfg(test)]
mod queues;
#[cfg(test)]
mod shared;
#[cfg(test)]
mod units;
#[cfg(test)]
mod values;
#[cfg(test)]
mod words;
