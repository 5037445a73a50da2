//! The text of a world, and how it is printed.
//!
//! [`print_world`] prints the text of a game's world, line by line, by a [`Printer`], which gathers
//! lines and writes them to a sink in pieces. The text is defined in `specs/WorldText.antt`. It
//! tells every field: [`text_tells_the_world`] is the law that two worlds of one size with the same
//! text are equal, and [`numbers_are_held`] that it holds of all worlds of code. What printing is
//! stands in `specs/Printing.antt`; what is printed piece by piece joins by
//! `proofs/PrintingLemmas.antt`.
#![tactic(auto)]

mod held;
mod keeping;
mod kept_text;
mod law;
mod lines;
mod print_fault;
mod printer;
mod printing;
mod worlds;

pub use held::numbers_are_held;
pub use keeping::PIECE;
pub use law::text_tells_the_world;
pub use print_fault::PrintFault;
pub use printer::Printer;
pub use worlds::print_world;
