//! Tests of saves: a small one field by field, and saves of played matches with each of their bytes
//! changed. They use what their crates make public.
#![tactic(auto)]

#[cfg(test)]
mod changed;
#[cfg(test)]
mod outcome;
#[cfg(test)]
mod real;
#[cfg(test)]
mod setups;
#[cfg(test)]
mod small;
