//! What becomes of the lines of a drill's events.
ghost use Rattle.std.specs.Prelude.{◌≡◌, ◌≤◌, [], string_bytes, OnOk, OnErr};
ghost use Rattle.std.specs.Prelude.{IsErrOf};
ghost use Rattle.base.specs.Cause.{Increased};
ghost use Rattle.base.specs.Written.{Wrote, WrotePrefix};
ghost use Rattle.drill.specs.Text.{outcome_line};
ghost use Rattle.drill.specs.RunsEvents.{PrintsLines, CutsLines};

use crate::outcome::Outcome;
use crate::run_fault::RunFault;
use crate::text::add_outcome_line;
use game_io::{Failed, Sink};

/// So many bytes of text are gathered before they are written.
const PIECE: usize = 65_536;

/// What becomes of the lines of events, in a run with a sink of this type.
pub(crate) trait EventLines<K: Sink> {
    ghost use Rattle.std.specs.Prelude.{◌≡◌, ◌≤◌, List, ℕ, OnOk, OnErr, IsErrOf};
    ghost use Rattle.base.specs.Cause.{Increased};
    ghost use Rattle.drill.specs.Text.{outcome_line};
    ghost use Rattle.drill.specs.RunsEvents.{PrintsLines, CutsLines};

    /// The text that is kept back.
    ghost kept: { Self → List ℕ };

    /// Takes the line of the event of this number.
    fn take(&mut self, number: u32, outcome: &Outcome, out: &mut K) -> Result<(), RunFault>
        ensures printed { OnOk result (PrintsLines (K.state out.old).written (kept self.old)
            (K.state out.new).written (kept self.new) (outcome_line number outcome.now)) }
        ensures cut { OnErr result (CutsLines (K.state out.old).written (kept self.old)
            (K.state out.new).written (outcome_line number outcome.now)) }
        ensures later { (K.state out.old).faults ≤ (K.state out.new).faults }
        ensures failed { IsErrOf result RunFault.Write →
            Increased (K.state out.old).faults (K.state out.new).faults };
}

/// The lines are printed, in pieces.
#[derive(Drop)]
pub(crate) struct PrintedLines {
    /// The text that is kept back.
    pub(crate) text: String,
}

impl<K: Sink> EventLines<K> for PrintedLines {
    ghost use Rattle.std.specs.Prelude.{string_bytes};

    ghost kept = { λ lines. string_bytes lines.text };

    fn take(&mut self, number: u32, outcome: &Outcome, out: &mut K) -> Result<(), RunFault> {
        let Ok(()) = add_outcome_line(&mut self.text, number, outcome) else {
            return Err(RunFault::NoMemory);
        };
        flush_if_full(&mut self.text, out)
    }
}

/// No lines are made.
#[derive(Drop)]
pub(crate) struct NoLines;

impl EventLines<Untold> for NoLines {
    ghost use Rattle.std.specs.Prelude.{[]};

    ghost kept = { λ lines. [] };

    fn take(
        &mut self,
        _number: u32,
        _outcome: &Outcome,
        _out: &mut Untold,
    ) -> Result<(), RunFault> {
        Ok(())
    }
}

/// A sink that tells nothing, for a run without a report.
#[derive(Drop)]
pub(crate) struct Untold;

impl Sink for Untold {
    ghost use Rattle.std.specs.Prelude.{None};

    ghost state = { λ sink. record { written = None; faults = 0 } };

    fn faults(&self) -> u64 {
        0
    }

    fn put(&mut self, _piece: &[u8]) -> Result<(), Failed> {
        Ok(())
    }
}

/// Writes the text that is kept back, if it is a piece.
fn flush_if_full<K: Sink>(text: &mut String, out: &mut K) -> Result<(), RunFault>
    ensures printed { OnOk result (PrintsLines (K.state out.old).written (string_bytes text.old)
        (K.state out.new).written (string_bytes text.new) []) }
    ensures prefix { OnErr result
        (WrotePrefix (K.state out.old).written (K.state out.new).written (string_bytes text.old)) }
    ensures later { (K.state out.old).faults ≤ (K.state out.new).faults }
    ensures failed { OnErr result (Increased (K.state out.old).faults (K.state out.new).faults) }
{
    if text.len() < PIECE {
        return Ok(());
    }
    flush(text, out)
}

/// Writes the text that is kept back.
pub(crate) fn flush<K: Sink>(text: &mut String, out: &mut K) -> Result<(), RunFault>
    ensures wrote { OnOk result
        (Wrote (K.state out.old).written (K.state out.new).written (string_bytes text.old)) }
    ensures empty { OnOk result (string_bytes text.new ≡ []) }
    ensures prefix { OnErr result
        (WrotePrefix (K.state out.old).written (K.state out.new).written (string_bytes text.old)) }
    ensures later { (K.state out.old).faults ≤ (K.state out.new).faults }
    ensures failed { OnErr result (Increased (K.state out.old).faults (K.state out.new).faults) }
{
    match out.put(text.as_bytes()) {
        Ok(()) => {
            text.clear();
            Ok(())
        }
        Err(_) => Err(RunFault::Write),
    }
}
