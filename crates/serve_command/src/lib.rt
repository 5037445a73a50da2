//! The command `serve`: a match that is served over links.
//!
//! [`serve_over`] makes the opening world of the match, serves it over the links of a net, and
//! prints how that ended (`specs/ServeText.antt`, `specs/Serves.antt`). [`serve_recorded`] writes
//! the match's replay after that (`specs/Records.antt`).
#![tactic(auto)]

mod causes;
mod printing;
mod recorded;
mod serve_text;

pub use printing::serve_over;
pub use recorded::serve_recorded;
