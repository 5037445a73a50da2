//! The calls of a printer.
ghost use Rattle.std.specs.Prelude.{◌≡◌, ℕ, List, [], string_bytes, IfOk, OnOk, IsTrue, IsSome};
ghost use Rattle.game_io.specs.SinkState.{SinkState};
ghost use Rattle.world_text.specs.Printing.{state_of, HasPrinted, IsPrinted, Prints};

use crate::keeping::{LINE_ROOM, PIECE, add_words, give_up, write_last};
use crate::kept_text::KeptText;
use crate::print_fault::PrintFault;
use crate::printer::Printer;
use base::NoMemory;
use game_io::Sink;
use std::alloc::Global;

impl Printer {
    /// A printer that keeps nothing back. Room for a piece of text is taken here; out of memory is
    /// the only error.
    #[tactic(auto, using(crate::proofs::PrintingLemmas::begins_printing))]
    pub fn create(alloc: Global) -> Result<Printer, NoMemory>
        ensures { IfOk result (λ printer. (first : SinkState) (whole : List ℕ) →
            IsPrinted first (state_of printer first) whole whole) }
    {
        Ok(Printer {
            line: String::with_capacity(alloc, LINE_ROOM)?,
            kept: KeptText {
                text: String::with_capacity(alloc, PIECE + LINE_ROOM)?,
                fault: None,
            },
        })
    }

    /// Prints words. Words of more than `LINE_ROOM` bytes are written as they are, without a copy.
    pub fn print<K: Sink>(&mut self, words: &str, out: &mut K)
        ensures { Prints (state_of self.old (K.state out.old)) (state_of self.new (K.state out.new))
            words.now }
    {
        add_words(&mut self.kept, words, out);
    }

    /// Prints what was written into `line`, if that did not run out of memory.
    pub fn print_line<K: Sink>(&mut self, written: Result<(), NoMemory>, out: &mut K)
        ensures { (line : List ℕ) → OnOk written (string_bytes self.old.line ≡ line) →
            Prints (state_of self.old (K.state out.old)) (state_of self.new (K.state out.new))
            line }
    {
        match written {
            Ok(()) => add_words(&mut self.kept, self.line.as_str(), out),
            Err(_) => give_up(&mut self.kept),
        }
    }

    /// Whether nothing is printed any more.
    pub fn has_failed(&self) -> bool
        ensures some { IsTrue result → IsSome self.now.kept.fault }
        ensures all { IsSome self.now.kept.fault → IsTrue result }
    {
        self.kept.fault.is_some()
    }

    /// Writes what is kept back. `Err` where a write failed, now or before, or memory ran out.
    #[tactic(auto, using(crate::proofs::PrintingLemmas::ends_early))]
    pub fn finish<K: Sink>(self, out: &mut K) -> Result<(), PrintFault>
        ensures { (first : SinkState) (whole : List ℕ) →
            IsPrinted first (state_of self (K.state out.old)) [] whole →
            HasPrinted first (K.state out.new) whole result }
    {
        match self.kept.fault {
            Some(fault) => Err(fault),
            None => write_last(&self.kept, out),
        }
    }
}
