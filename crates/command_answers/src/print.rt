ghost use Rattle.std.specs.Prelude.{◌≡◌, ◌≤◌, string_bytes, IfOk};
ghost use Rattle.command_answers.specs.Printing.{PrintsReply};
ghost use Rattle.command_answers.specs.Reply.{printed, words_reply, refusal_text};
ghost use Rattle.command_answers.specs.Stop.{PrintsStop, PrintsText};

use crate::statuses::{DONE, FAULT_READ, FAULT_WRITE, OUT_OF_MEMORY, REFUSED_FILE, REFUSED_WORDS};
use crate::stop::Stop;
use base::NoMemory;
use game_io::Sink;
use std::alloc::Global;

/// Prints the last text of an answer.
pub fn print_last<K: Sink>(out: &mut K, text: &[u8], status: u8) -> u8
    ensures prints { PrintsReply (printed status text.now) result
        (K.state out.old) (K.state out.new) }
    ensures later { (K.state out.old).faults ≤ (K.state out.new).faults }
{
    match out.put(text) {
        Ok(()) => status,
        Err(_) => FAULT_WRITE,
    }
}

/// Refuses the words.
pub fn refuse_words<K: Sink>(out: &mut K) -> u8
    ensures prints { PrintsReply words_reply result (K.state out.old) (K.state out.new) }
    ensures later { (K.state out.old).faults ≤ (K.state out.new).faults }
{
    print_last(out, b"refused words\n", REFUSED_WORDS)
}

/// Prints why a command ended before it had its text.
pub fn print_stop<K: Sink>(alloc: Global, stop: Stop<'_>, out: &mut K) -> u8
    ensures prints { PrintsStop stop.entry result (K.state out.old) (K.state out.new) }
    ensures later { (K.state out.old).faults ≤ (K.state out.new).faults }
{
    match stop {
        Stop::Refused { name, place, cause } => match refusal_line(alloc, name, place, cause) {
            Ok(text) => print_last(out, text.as_bytes(), REFUSED_FILE),
            Err(_) => OUT_OF_MEMORY,
        },
        Stop::ReadFault => print_last(out, b"fault read\n", FAULT_READ),
        Stop::NoMemory => OUT_OF_MEMORY,
    }
}

/// Prints the text of a command, or why it ended before it had one.
pub fn print_text<K: Sink>(alloc: Global, text: Result<Vec<u8>, Stop<'_>>, out: &mut K) -> u8
    ensures prints { PrintsText text.entry result (K.state out.old) (K.state out.new) }
    ensures later { (K.state out.old).faults ≤ (K.state out.new).faults }
{
    match text {
        Ok(text) => print_last(out, &text, DONE),
        Err(stop) => print_stop(alloc, stop, out),
    }
}

/// The line that refuses a file: its name, a place in it, and the cause.
#[tactic(auto, unfolding(crate::specs::Reply::refusal_text))]
fn refusal_line(alloc: Global, name: &str, place: u64, cause: &str) -> Result<String, NoMemory>
    ensures { IfOk result (λ line. string_bytes line ≡ refusal_text name.now place cause.now) }
{
    let mut line = String::new(alloc);
    writeln!(line, "refused {name} {place} {cause}")?;
    Ok(line)
}
