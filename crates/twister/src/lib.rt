//! Random words: the Mersenne Twister MT19937 of Matsumoto and Nishimura (1998).
//!
//! Contracts see a twister as a place in one endless sequence: its seed, and how many words were
//! drawn. The code keeps a block of 624 words of the sequence, which it refills in place, so a draw
//! costs about what it costs in plain C. No call takes memory.
#![tactic(auto)]

mod block;
mod draws;
mod law;
mod twist;

pub use block::recurrences;
pub use draws::Twister;
pub use law::words_in_order;
