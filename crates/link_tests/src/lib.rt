//! Tests of `match_net`: what it makes of links, by their bytes.
//! They use what the crate makes public.
#![tactic(auto)]

#[cfg(test)]
mod bot_players;
#[cfg(test)]
mod greetings;
#[cfg(test)]
mod links;
#[cfg(test)]
mod players;
#[cfg(test)]
mod rows;
#[cfg(test)]
mod steps;
