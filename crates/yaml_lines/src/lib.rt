//! The lines of a MiniYaml text: `parse` makes the tree of its nodes, `print` writes such a tree.
//!
//! Each line is read by itself, and the tree is built as the lines come. What `parse` promises is
//! said on two flat lists: the nodes of the forest, each with its level, key, value and place, in
//! the order of the text, are exactly the lines that are kept. Otherwise the answer is the first
//! line that is at fault. So the answer is a function of the bytes: the forest in which each kept
//! line is a child of the nearest one above it whose level is one less. What `print` writes of a
//! forest that came out of lines has its levels, keys and values when it is read again.
#![tactic(auto)]

mod blanks;
mod fault;
mod forest;
mod found;
mod grow;
mod growing;
mod line;
mod origin;
mod parsing;
mod place;
mod printing;
mod text;

pub use blanks::trim;
pub use fault::LineFault;
pub use forest::{Forest, Node};
pub use parsing::parse;
pub use place::Place;
pub use printing::print;
pub use text::Text;

/// The most lines that a file may have.
pub const MAX_LINES: u32 = 65_536;

/// The most bytes of a line, without its LF.
pub const MAX_LINE_BYTES: usize = 4_096;

/// How many levels there are: the deepest node is at level 31.
pub const MAX_LEVELS: usize = 32;
