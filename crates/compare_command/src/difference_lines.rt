ghost use Rattle.std.specs.Prelude.{◌≡◌, ◌<◌, ◌+◌, ◌++◌, length, string_bytes, IfOk, OnOk};
ghost use Rattle.compare_command.specs.Found.{nothing_found, with_line};
ghost use Rattle.compare_command.specs.Lines.{last_lines};

use crate::words::add_last;
use base::NoMemory;
use std::alloc::Global;
use std::marker::Model;

/// The lines of differences, and how many they are.
#[derive(Drop)]
pub(crate) struct DifferenceLines {
    text: String,
    count: u64,
}

impl Model for DifferenceLines {
    ghost use Rattle.std.specs.Prelude.{◌≤◌, length, string_bytes};
    ghost use Rattle.compare_command.specs.Found.{FoundState};

    ghost Value = { FoundState };

    ghost view = { λ lines. record { text = string_bytes lines.text; count = lines.count } };

    // Each line has a byte at least.
    ghost invariant = { λ lines. lines.count ≤ length (string_bytes lines.text) };
}

/// One more than this number, which is less than the length of a text.
fn one_more(count: u64, text: &str) -> u64
    requires { count < length text.now }
    ensures { result ≡ count + 1 }
{
    let _len = text.len();
    count + 1
}

impl DifferenceLines {
    /// None yet.
    pub(crate) fn new(alloc: Global) -> DifferenceLines
        ensures { result ≡ nothing_found }
    {
        DifferenceLines {
            text: String::new(alloc),
            count: 0,
        }
    }

    /// Adds a line.
    pub(crate) fn add(&mut self, line: &str) -> Result<(), NoMemory>
        requires { 0 < length line.now }
        ensures { OnOk result (self.new ≡ with_line self.old line.now) }
    {
        self.text.push_str(line)?;
        self.count = one_more(self.count, self.text.as_str());
        Ok(())
    }

    /// How many there are.
    pub(crate) fn count(&self) -> u64
        ensures { result ≡ self.now.count }
    {
        self.count
    }

    /// The lines, and the last lines.
    pub(crate) fn into_text(self) -> Result<String, NoMemory>
        ensures { IfOk result (λ text. string_bytes text ≡ self.text ++ last_lines self.count) }
    {
        let Self { mut text, count } = self;
        add_last(&mut text, count)?;
        Ok(text)
    }
}
