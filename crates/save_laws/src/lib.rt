//! A law of saves: what is read is spelled so, each byte of it. So bytes that are read as a save
//! are those that `game_save::write_save` writes of what was read, and none is left over.
#![tactic(auto)]

mod law;

pub use law::what_is_read_is_spelled_so;
