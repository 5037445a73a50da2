//! The columns of a match, shared by threads.
//!
//! Threads put frames into the columns of a [`FrameTable`] and read them, each with a [`Pass`]. A
//! word for each column tells its number of plays and whether its client has left; the column
//! itself lies in a slot, behind a lock that is one more bit of the word. [`FrameTable::ready`] and
//! [`FrameTable::seen`] only load words. The other calls take the lock of one column, work on it as
//! on any `Columns`, and give the lock back by the very step that publishes the new word.
//!
//! A pass has no bytes. It is what contracts know of a thread (`specs/Part.antt`): how far it has
//! seen each column, which entries it knows, how often it loaded the word, whether it may add
//! plays, which departures it fixed, and a share of the whole. The kinds of step are in
//! `specs/Steps.antt`, and what holds between any two steps in `specs/Rule.antt`: columns only
//! grow, each pass has seen and knows a beginning of each, a departure is fixed once, by one pass.
#![tactic(auto)]

mod batches;
mod entries;
mod locking;
mod looks;
mod pass;
mod passing;
mod plan;
mod planned;
mod rule;
mod seen;
mod table;
mod view;
mod word;

pub use pass::Pass;
pub use plan::Plan;
pub use planned::Planned;
pub use seen::Seen;
pub use table::FrameTable;
