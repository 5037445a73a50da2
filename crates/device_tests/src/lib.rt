//! Tests of the devices: those that fail when told to, and the real ones.
//! They use what their crates make public.
#![tactic(auto)]

#[cfg(test)]
mod devices;
#[cfg(test)]
mod files;
#[cfg(test)]
mod sockets;
#[cfg(test)]
mod watches;
