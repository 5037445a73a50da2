//! What other commands add to their texts: all of it, or, out of memory, nothing.
ghost use Rattle.std.specs.Prelude.{◌≡◌, ◌++◌, string_bytes, OnOk, OnErr};
ghost use Rattle.drill_words.specs.Hash.{hash_digits};
ghost use Rattle.drill.specs.Report.{column_lines, alarm_lines};
ghost use Rattle.drill.specs.Text.{world_text};

use crate::closing::{write_alarms, write_columns};
use crate::text::{write_hash, write_world};
use base::NoMemory;
use frame_core::{Columns, Sim};
use server_core::Board;

/// Adds the line of each column. It fails only where it is out of memory, and then nothing changes.
pub fn add_columns(text: &mut String, columns: &Columns) -> Result<(), NoMemory>
    ensures added { OnOk result (string_bytes text.new
        ≡ string_bytes text.old ++ column_lines 0 columns.now) }
    ensures err { OnErr result (string_bytes text.new ≡ string_bytes text.old) }
{
    let mut lines = String::new(*text.allocator());
    write_columns(&mut lines, columns)?;
    text.push_str(lines.as_str())
}

/// Adds the line of each alarm. It fails only where it is out of memory, and then nothing changes.
pub fn add_alarms(text: &mut String, board: &Board) -> Result<(), NoMemory>
    ensures added { OnOk result (string_bytes text.new
        ≡ string_bytes text.old ++ alarm_lines board.now.wanted 0 board.now.reports) }
    ensures err { OnErr result (string_bytes text.new ≡ string_bytes text.old) }
{
    let mut lines = String::new(*text.allocator());
    write_alarms(&mut lines, board)?;
    text.push_str(lines.as_str())
}

/// Adds the end of a line that shows a world, after what names it: the world's hash, its number of
/// actors, and the cash of its clients. It fails only where it is out of memory, and then nothing
/// changes.
pub fn add_world<S: Sim>(text: &mut String, world: &S) -> Result<(), NoMemory>
    ensures added { OnOk result (string_bytes text.new
        ≡ string_bytes text.old ++ world_text S.hash_of S.summary_of world.now) }
    ensures err { OnErr result (string_bytes text.new ≡ string_bytes text.old) }
{
    let mut shown = String::new(*text.allocator());
    write_world(&mut shown, world)?;
    text.push_str(shown.as_str())
}

/// Adds a hash, as 16 hexadecimal digits. It fails only where it is out of memory, and then nothing
/// changes.
pub fn add_hash(text: &mut String, hash: u64) -> Result<(), NoMemory>
    ensures added { OnOk result (string_bytes text.new ≡ string_bytes text.old ++ hash_digits hash) }
    ensures err { OnErr result (string_bytes text.new ≡ string_bytes text.old) }
{
    let mut digits = String::new(*text.allocator());
    write_hash(&mut digits, hash)?;
    text.push_str(digits.as_str())
}
