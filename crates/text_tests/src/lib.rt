//! Tests of how rule files and maps are read.
//! They use what their crates make public.
#![tactic(auto)]

#[cfg(test)]
mod lines;
#[cfg(test)]
mod maps;
#[cfg(test)]
mod merged;
#[cfg(test)]
mod traits;
