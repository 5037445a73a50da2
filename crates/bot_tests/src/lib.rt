//! Matches in which the last clients are bots, played to their ends: expected are the hash, the
//! actors and the cash of the last world. They use what their crates make public.
#![tactic(auto)]

#[cfg(test)]
mod match_case;
#[cfg(test)]
mod matches;
#[cfg(test)]
mod more_bots;
#[cfg(test)]
mod on_threads;
#[cfg(test)]
mod one_bot;
#[cfg(test)]
mod over_links;
#[cfg(test)]
mod playing;
