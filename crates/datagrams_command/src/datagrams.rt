ghost use Rattle.std.specs.Prelude.{◌≡◌, ◌≢◌, ◌++◌, ◌≤◌, length, string_bytes, IfOk, MatchResult};
ghost use Rattle.std.specs.Prelude.{Ok};
ghost use Rattle.drill_words.specs.declared.limits.TheConstants.{MAX_EVENTS};
ghost use Rattle.base.specs.Steps.{IsFault};
ghost use Rattle.command_answers.specs.Answer.{reply_of};
ghost use Rattle.command_answers.specs.Stop.{ReturnsStep};
ghost use Rattle.drill_words.specs.Drill.{ReturnsRead};
ghost use Rattle.drill_words.specs.declared.limits.TheConstants.{MAX_DRILL_BYTES};
ghost use Rattle.drill_words.specs.declared.drill_fault.DrillFault.TheVariants as fault;
ghost use Rattle.datagrams_command.specs.Datagrams.{datagrams_step, script_text};
ghost use Rattle.datagrams_command.specs.Run.{run_one, run_from, exchange_closing};

use crate::script_line::read_event_on;
use crate::text::{add_got_lines, add_outcome_line, last_lines};
use base::NoMemory;
use command_answers::{Answer, DONE, Stop, drill_stop};
use datagram_schedule::Exchange;
use drill_words::{DrillFault, KeptLines, WordCursor};
use std::alloc::Global;

/// Runs the event of a line that follows so many others, and adds its line.
#[tactic(auto, unfolding(crate::specs::Run::run_one))]
fn run_line(
    alloc: Global,
    exchange: &mut Exchange,
    text: &mut String,
    before: u32,
    number: u32,
    cursor: WordCursor<'_>,
) -> Result<(), DrillFault>
    ensures line { MatchResult result
        (λ _. run_one before exchange.old (string_bytes text.old)
        (record { number = number; words = cursor.entry })
        ≡ Ok (exchange.new, string_bytes text.new))
        (λ cause. IsFault fault.NoMemory cause (run_one before exchange.old (string_bytes text.old)
        (record { number = number; words = cursor.entry }))) }
    ensures room { IfOk result (λ _. before ≢ MAX_EVENTS) }
{
    let event = read_event_on(before, number, cursor)?;
    let Ok(outcome) = exchange.take(alloc, &event) else {
        return Err(DrillFault::NoMemory);
    };
    let Ok(()) = add_outcome_line(text, before, outcome) else {
        return Err(DrillFault::NoMemory);
    };
    Ok(())
}

/// Runs the events of all lines that are left, and adds their lines.
fn run_lines(
    alloc: Global,
    lines: &mut KeptLines<'_>,
    exchange: &mut Exchange,
    text: &mut String,
) -> Result<(), DrillFault>
    ensures { MatchResult result
        (λ _. run_from 0 exchange.old (string_bytes text.old) lines.old
        ≡ Ok (exchange.new, string_bytes text.new))
        (λ cause. IsFault fault.NoMemory cause
        (run_from 0 exchange.old (string_bytes text.old) lines.old)) }
{
    let mut before: u32 = 0;
    while let Some((number, cursor)) = lines.next() {
        run_line(alloc, exchange, text, before, number, cursor)?;
        before += 1;
    }
    Ok(())
}

/// The lines of the events, and those after them.
fn with_closing(alloc: Global, exchange: &mut Exchange, lines: String) -> Result<Vec<u8>, NoMemory>
    ensures { IfOk result (λ text. text.items
        ≡ string_bytes lines ++ exchange_closing exchange.old) }
{
    let mut text = lines.into_bytes();
    add_got_lines(&mut text, exchange)?;
    let last = last_lines(
        alloc,
        exchange.offered(),
        exchange.delivered(),
        exchange.acknowledged(),
    )?;
    text.extend_from_slice(last.as_bytes())?;
    Ok(text)
}

/// What is printed of a script of at most `MAX_DRILL_BYTES` bytes, or its first fault.
fn run_script(alloc: Global, bytes: &[u8]) -> Result<Vec<u8>, DrillFault>
    requires { length bytes.now ≤ MAX_DRILL_BYTES }
    ensures { ReturnsRead (λ text. text.items) result (script_text bytes.now) }
{
    let mut lines = KeptLines::of(bytes);
    let Ok(mut exchange) = Exchange::create(alloc) else {
        return Err(DrillFault::NoMemory);
    };
    let mut text = String::new(alloc);
    run_lines(alloc, &mut lines, &mut exchange, &mut text)?;
    let Ok(text) = with_closing(alloc, &mut exchange, text) else {
        return Err(DrillFault::NoMemory);
    };
    Ok(text)
}

/// The answer to `datagrams`: what each event of the script of a file with this name comes to, the
/// payloads that were delivered, and how many were offered, delivered and acknowledged. It is that
/// of the schedule as sets and lists. A faulty script is refused with the line and the cause of its
/// first fault: `BadWord`, `BadNumber` or `TooManyEvents`. No read fails here.
pub fn datagrams_answer<'a>(
    alloc: Global,
    name: &'a str,
    bytes: &[u8],
) -> Result<Answer<'static>, Stop<'a>>
    requires { length bytes.now ≤ MAX_DRILL_BYTES }
    ensures { ReturnsStep result reply_of (datagrams_step name.now bytes.now) }
{
    match run_script(alloc, bytes) {
        Ok(text) => Ok(Answer {
            status: DONE,
            text,
            write: None,
        }),
        Err(fault) => Err(drill_stop(name, &fault)),
    }
}
