//! Tests of what is read and written: packets, replays, drills, scripts.
//! They use what their crates make public.
#![tactic(auto)]

#[cfg(test)]
mod drills;
#[cfg(test)]
mod faults;
#[cfg(test)]
mod made;
#[cfg(test)]
mod packets;
#[cfg(test)]
mod replays;
#[cfg(test)]
mod scripts;
