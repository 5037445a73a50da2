//! Tests of the world: its tables, its routes, what an actor does in a tick, its hash.
//! They use what their crates make public.
#![tactic(auto)]

#[cfg(test)]
mod actors;
#[cfg(test)]
mod attacks;
#[cfg(test)]
mod grids;
#[cfg(test)]
mod hashes;
#[cfg(test)]
mod legs;
#[cfg(test)]
mod nearest;
#[cfg(test)]
mod payments;
#[cfg(test)]
mod searches;
#[cfg(test)]
mod shrouds;
#[cfg(test)]
mod ticks;
