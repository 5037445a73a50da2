ghost use Rattle.std.specs.Prelude.{◌≡◌, ◌++◌, ◌∷◌, [], string_bytes, IfOk, OnOk};
ghost use Rattle.compare_command.specs.Difference.{OnlyFirst, OnlySecond, compared, values_of};
ghost use Rattle.compare_command.specs.Found.{nothing_found, with_found};
ghost use Rattle.compare_command.specs.Lines.{last_lines};

use crate::difference_lines::DifferenceLines;
use crate::same::are_same;
use crate::subject::Subject;
use crate::values::Values;
use crate::words::{add_difference, add_only_first, add_only_second};
use base::NoMemory;
use std::alloc::Global;
use std::marker::Model;

/// The differences that were found so far: their lines, and how many they are.
#[derive(Drop)]
pub(crate) struct Found {
    lines: DifferenceLines,
    // Room for a line.
    line: String,
}

impl Model for Found {
    ghost use Rattle.compare_command.specs.Found.{FoundState};

    ghost Value = { FoundState };

    ghost view = { λ found. found.lines };
}

impl Found {
    /// None yet.
    pub(crate) fn nothing(alloc: Global) -> Found
        ensures { result ≡ nothing_found }
    {
        Found {
            lines: DifferenceLines::new(alloc),
            line: String::new(alloc),
        }
    }

    /// Adds the line of two values, if they differ.
    #[tactic(auto, using(crate::proofs::FoundLemmas::line_steps))]
    pub(crate) fn compare(&mut self, of: Subject, values: Values<'_>) -> Result<(), NoMemory>
        ensures { OnOk result
            (self.new ≡ with_found self.old (compared of (values_of values.entry))) }
    {
        if are_same(values) {
            return Ok(());
        }
        self.line.clear();
        add_difference(&mut self.line, of, values)?;
        self.lines.add(self.line.as_str())
    }

    /// Adds the line of an actor that the first file alone has.
    #[tactic(auto, using(crate::proofs::FoundLemmas::line_steps))]
    pub(crate) fn add_first(&mut self, id: u32) -> Result<(), NoMemory>
        ensures { OnOk result (self.new ≡ with_found self.old (OnlyFirst id ∷ [])) }
    {
        self.line.clear();
        add_only_first(&mut self.line, id)?;
        self.lines.add(self.line.as_str())
    }

    /// Adds the line of an actor that the second file alone has.
    #[tactic(auto, using(crate::proofs::FoundLemmas::line_steps))]
    pub(crate) fn add_second(&mut self, id: u32) -> Result<(), NoMemory>
        ensures { OnOk result (self.new ≡ with_found self.old (OnlySecond id ∷ [])) }
    {
        self.line.clear();
        add_only_second(&mut self.line, id)?;
        self.lines.add(self.line.as_str())
    }

    /// How many there are.
    pub(crate) fn count(&self) -> u64
        ensures { result ≡ self.now.count }
    {
        self.lines.count()
    }

    /// Their lines, and the last lines.
    pub(crate) fn into_text(self) -> Result<String, NoMemory>
        ensures { IfOk result (λ text. string_bytes text ≡ self.text ++ last_lines self.count) }
    {
        let Self { lines, line: _ } = self;
        lines.into_text()
    }
}
