//! The printed lines of replays.
ghost use Rattle.std.specs.Prelude.{◌≡◌, ◌++◌, string_bytes, IfOk, OnOk};
ghost use Rattle.replay_run.specs.Shown.{mark_line, mark_lines, migrated_lines, refused_lines};
ghost use Rattle.replay_run.specs.Shown.{replay_lines};

use crate::difference::Difference;
use crate::replayed::Replayed;
use base::NoMemory;
use drill::{add_end_line, add_hash, add_world};
use frame_core::Sim;
use std::alloc::Global;
use std::fmt::Write;

/// The lines of a replay: the differing mark, if there is one, the world in the end, and `end`.
#[tactic(auto, unfolding(crate::specs::Shown::replay_head))]
pub fn replay_text<S: Sim>(alloc: Global, r: &Replayed<S>) -> Result<String, NoMemory>
    ensures { IfOk result (λ text. string_bytes text ≡ replay_lines S.hash_of S.summary_of r.now) }
{
    let frames = r.frames;
    let mut text = String::new(alloc);
    add_marks(&mut text, r.difference)?;
    write!(text, "replay frames {frames}")?;
    add_world(&mut text, &r.world)?;
    add_end_line(&mut text)?;
    Ok(text)
}

/// The lines of a migration that finds a differing mark.
pub fn refused_text(alloc: Global, d: Difference) -> Result<String, NoMemory>
    ensures { IfOk result (λ text. string_bytes text ≡ refused_lines d) }
{
    let mut text = String::new(alloc);
    add_mark(&mut text, d)?;
    add_end_line(&mut text)?;
    Ok(text)
}

/// The lines of a migration of so many frames and marks that finds none.
#[tactic(auto, unfolding(crate::specs::Shown::migrated_line))]
pub fn migrated_text(alloc: Global, frames: u32, marks: u32) -> Result<String, NoMemory>
    ensures { IfOk result (λ text. string_bytes text ≡ migrated_lines frames marks) }
{
    let mut text = String::new(alloc);
    writeln!(text, "migrated frames {frames} marks {marks}")?;
    add_end_line(&mut text)?;
    Ok(text)
}

/// Adds the line of the differing mark, if there is one.
fn add_marks(text: &mut String, difference: Option<Difference>) -> Result<(), NoMemory>
    ensures { OnOk result
        (string_bytes text.new ≡ string_bytes text.old ++ mark_lines difference) }
{
    match difference {
        Some(d) => add_mark(text, d),
        None => Ok(()),
    }
}

/// Adds the line of a differing mark.
#[tactic(auto, unfolding(crate::specs::Shown::mark_line))]
fn add_mark(text: &mut String, d: Difference) -> Result<(), NoMemory>
    ensures { OnOk result (string_bytes text.new ≡ string_bytes text.old ++ mark_line d) }
{
    let frames = d.frames;
    write!(text, "mark {frames} file ")?;
    add_hash(text, d.file)?;
    write!(text, " here ")?;
    add_hash(text, d.here)?;
    writeln!(text)
}
