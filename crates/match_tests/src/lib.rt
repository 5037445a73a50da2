//! Tests of the two sides of a match: orders, columns, a peer, a server. They use what their crates
//! make public.
#![tactic(auto)]

#[cfg(test)]
mod boards;
#[cfg(test)]
mod columns;
#[cfg(test)]
mod entries;
#[cfg(test)]
mod orders;
#[cfg(test)]
mod peers;
#[cfg(test)]
mod plays;
#[cfg(test)]
mod servers;
