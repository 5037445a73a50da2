//! Least-cost routes over the cells of a map.
//!
//! A walk is a list of cells joined by steps to neighbours. A step costs 5 straight on and 7 across
//! a corner, times what the ground costs that it enters. A cell can't be entered where its ground
//! costs 0, or where a building stands on it that isn't the goal, and a step across a corner needs
//! both cells beside it to be free too. Only entered cells are tested, so a walk may begin
//! anywhere.
//!
//! [`Router`] finds the least cost of all walks, and the least direction that begins such a walk.
//! It searches from the goal, by rings of cells that are equally far (R. B. Dial, "Algorithm 360:
//! Shortest-path forest with topological ordering", Communications of the ACM 12, 1969), and stops
//! as soon as the answer is sure. The first search to a goal is for the asking cell alone: it
//! leaves out each cell over which a walk from there would cost more than a guess, by what the rest
//! costs at least (P. E. Hart, N. J. Nilsson, B. Raphael, "A Formal Basis for the Heuristic
//! Determination of Minimum Cost Paths", IEEE Transactions on Systems Science and Cybernetics 4,
//! 1968). Where the guess is too low, or another cell asks that was left out, the search begins
//! again, over all cells. What it found is kept, and a later question goes on from there. So are the
//! next steps of the walk from a cell that was asked for: a question for one of these needs no
//! field.
#![tactic(auto)]

mod ask;
mod beside;
mod best_direction;
mod buckets;
mod entry_costs;
mod field;
mod fields;
mod findings;
mod index;
mod known_walk;
mod known_walks;
mod law;
mod offers;
mod reach;
mod route;
mod router;
mod search;
mod step_costs;
mod surface;
mod trails;
mod walks_by_goal;

pub use index::FIELDS;
pub use law::distances_are_least;
pub use route::Route;
pub use router::Router;
