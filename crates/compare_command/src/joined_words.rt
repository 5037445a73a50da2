//! Numbers after a colon, which stands for a space or a comma.
ghost use Rattle.std.specs.Prelude.{◌≡◌, ◌++◌, string_bytes, OnOk};
ghost use Rattle.compare_command.specs.JoinedWords.{number_word, place_word};

use base::NoMemory;
use std::fmt::Write;
use world_units::CPos;

/// Adds a number after a colon.
#[tactic(auto, using(crate::proofs::WordLemmas::number_words))]
pub(crate) fn add_number(text: &mut String, number: u32) -> Result<(), NoMemory>
    ensures { OnOk result
        (string_bytes text.new ≡ string_bytes text.old ++ number_word number) }
{
    write!(text, ":{number}")
}

/// Adds the column and the row of a cell, each after a colon.
pub(crate) fn add_place(text: &mut String, cell: CPos) -> Result<(), NoMemory>
    ensures { OnOk result (string_bytes text.new ≡ string_bytes text.old ++ place_word cell) }
{
    add_number(text, u32::from(cell.x))?;
    add_number(text, u32::from(cell.y))
}
