//! Words that are kept back, and written once they are a piece.
#![tactic(auto, using(crate::proofs::PrintingLemmas::printing_steps))]

ghost use Rattle.std.specs.Prelude.{◌≡◌, ℕ, List, [], string_bytes, IsNone};
ghost use Rattle.game_io.specs.SinkState.{SinkState};
ghost use Rattle.world_text.specs.Printing.{kept_state, HasPrinted, IsPrinted, Prints};

use crate::kept_text::KeptText;
use crate::print_fault::PrintFault;
use game_io::Sink;

/// So many bytes of text are gathered before they are written.
pub const PIECE: usize = 65_536;

/// Longer words than this are written by themselves, so the text has room for a piece and these.
pub(crate) const LINE_ROOM: usize = 4_096;

/// Prints words.
pub(crate) fn add_words<K: Sink>(kept: &mut KeptText, words: &str, out: &mut K)
    ensures { Prints (kept_state kept.old (K.state out.old)) (kept_state kept.new (K.state out.new))
        words.now }
{
    if kept.fault.is_some() {
        return;
    }
    if words.len() > LINE_ROOM {
        write_kept(kept, out);
        write_words(kept, words, out);
    } else {
        keep_words(kept, words, out);
    }
}

/// Keeps words back, and writes what is kept back, if it is a piece.
fn keep_words<K: Sink>(kept: &mut KeptText, words: &str, out: &mut K)
    requires { IsNone kept.old.fault }
    ensures { Prints (kept_state kept.old (K.state out.old)) (kept_state kept.new (K.state out.new))
        words.now }
{
    match kept.text.push_str(words) {
        Ok(()) => write_if_full(kept, out),
        Err(_) => kept.fault = Some(PrintFault::NoMemory),
    }
}

/// Writes what is kept back, if it is a piece.
fn write_if_full<K: Sink>(kept: &mut KeptText, out: &mut K)
    requires { IsNone kept.old.fault }
    ensures { Prints (kept_state kept.old (K.state out.old)) (kept_state kept.new (K.state out.new))
        [] }
{
    if kept.text.len() >= PIECE {
        write_kept(kept, out);
    }
}

/// Writes what is kept back.
fn write_kept<K: Sink>(kept: &mut KeptText, out: &mut K)
    requires { IsNone kept.old.fault }
    ensures prints { Prints (kept_state kept.old (K.state out.old))
        (kept_state kept.new (K.state out.new)) [] }
    ensures empty { IsNone kept.new.fault → string_bytes kept.new.text ≡ [] }
{
    match out.put(kept.text.as_bytes()) {
        Ok(()) => kept.text.clear(),
        Err(_) => kept.fault = Some(PrintFault::Write),
    }
}

/// Writes words after text that was written, if nothing went wrong.
fn write_words<K: Sink>(kept: &mut KeptText, words: &str, out: &mut K)
    requires { IsNone kept.old.fault → string_bytes kept.old.text ≡ [] }
    ensures { Prints (kept_state kept.old (K.state out.old)) (kept_state kept.new (K.state out.new))
        words.now }
{
    if kept.fault.is_some() {
        return;
    }
    match out.put(words.as_bytes()) {
        Ok(()) => {}
        Err(_) => kept.fault = Some(PrintFault::Write),
    }
}

/// Prints nothing any more, since memory ran out.
pub(crate) fn give_up(kept: &mut KeptText)
    ensures { (words : List ℕ) (sink : SinkState) →
        Prints (kept_state kept.old sink) (kept_state kept.new sink) words }
{
    if kept.fault.is_none() {
        kept.fault = Some(PrintFault::NoMemory);
    }
}

/// Writes what is kept back last of all.
#[tactic(auto, using(crate::proofs::PrintingLemmas::printing_ends))]
pub(crate) fn write_last<K: Sink>(kept: &KeptText, out: &mut K) -> Result<(), PrintFault>
    requires { IsNone kept.now.fault }
    ensures { (first : SinkState) (whole : List ℕ) →
        IsPrinted first (kept_state kept.now (K.state out.old)) [] whole →
        HasPrinted first (K.state out.new) whole result }
{
    match out.put(kept.text.as_bytes()) {
        Ok(()) => Ok(()),
        Err(_) => Err(PrintFault::Write),
    }
}
