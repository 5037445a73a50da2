//! The commands over links: a script, or what a bot orders, that is played at a server.
//!
//! [`read_solo`] reads the script of one client (`specs/SoloScript.antt`), and [`play_over`] dials
//! a server, plays it over the link (`specs/PlayedLink.antt`) and prints how that ended
//! (`specs/PlayText.antt`, `specs/Plays.antt`); [`play_bot_over`] does the same with what a bot
//! orders. What a command over links does altogether, from its files on, is said by
//! `specs/Links.antt`.
#![tactic(auto)]

mod causes;
mod play_fault;
mod play_text;
mod playing;
mod printing;
mod solo;

pub use causes::feed_name;
pub use play_text::lost_answer;
pub use printing::{play_bot_over, play_over, print_made};
pub use solo::read_solo;
