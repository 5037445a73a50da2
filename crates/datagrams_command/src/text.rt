//! The lines that are printed of a schedule.
ghost use Rattle.std.specs.Prelude.{◌≡◌, ◌++◌, string_bytes, OnOk, IfOk};
ghost use Rattle.datagrams_command.specs.Text.{outcome_text, outcome_line, got_line, got_lines};
ghost use Rattle.datagrams_command.specs.Text.{last_lines};

use base::NoMemory;
use datagram_schedule::{Exchange, Outcome};
use std::alloc::Global;
use std::fmt::Write;

/// Adds the outcome of an event.
fn add_outcome(text: &mut String, outcome: Outcome) -> Result<(), NoMemory>
    ensures { OnOk result (string_bytes text.new
        ≡ string_bytes text.old ++ outcome_text outcome) }
{
    match outcome {
        Outcome::Offered(number) => write!(text, "offered {number}"),
        Outcome::WindowFull => write!(text, "window full"),
        Outcome::Sent(gram) => write!(text, "sent {gram}"),
        Outcome::NoneDue => write!(text, "none due"),
        Outcome::Acknowledged { gram, next } => write!(text, "ack {gram} next {next}"),
        Outcome::Delivered(count) => write!(text, "delivered {count}"),
        Outcome::Kept(number) => write!(text, "kept {number}"),
        Outcome::Repeat(number) => write!(text, "repeat {number}"),
        Outcome::Freed(count) => write!(text, "freed {count}"),
        Outcome::Old => write!(text, "old"),
        Outcome::NoDatagram => write!(text, "no datagram"),
    }
}

/// Adds the line of the event of this number.
#[tactic(auto, unfolding(crate::specs::Text::outcome_line))]
pub(crate) fn add_outcome_line(
    text: &mut String,
    number: u32,
    outcome: Outcome,
) -> Result<(), NoMemory>
    ensures { OnOk result (string_bytes text.new
        ≡ string_bytes text.old ++ outcome_line number outcome) }
{
    write!(text, "{number} ")?;
    add_outcome(text, outcome)?;
    writeln!(text)
}

/// Adds the line of a payload, which may be no UTF-8.
#[tactic(auto, unfolding(crate::specs::Text::got_line))]
fn add_got_line(text: &mut Vec<u8>, payload: &[u8]) -> Result<(), NoMemory>
    ensures { OnOk result (text.new.items ≡ text.old.items ++ got_line payload.now) }
{
    text.extend_from_slice(b"got ")?;
    text.extend_from_slice(payload)?;
    text.extend_from_slice(b"\n")
}

/// Adds the lines of all payloads that came into order.
pub(crate) fn add_got_lines(text: &mut Vec<u8>, exchange: &mut Exchange) -> Result<(), NoMemory>
    ensures lines { OnOk result (text.new.items
        ≡ text.old.items ++ got_lines exchange.old.receiver.ready) }
    ensures sender { exchange.new.sender ≡ exchange.old.sender }
    ensures next { exchange.new.receiver.next ≡ exchange.old.receiver.next }
{
    while let Some(payload) = exchange.pop() {
        add_got_line(text, payload.as_slice())?;
    }
    Ok(())
}

/// The last lines.
#[tactic(auto, unfolding(crate::specs::Text::last_lines))]
pub(crate) fn last_lines(
    alloc: Global,
    offered: u32,
    delivered: u32,
    acked: u32,
) -> Result<String, NoMemory>
    ensures { IfOk result (λ text. string_bytes text ≡ last_lines offered delivered acked) }
{
    let mut text = String::new(alloc);
    writeln!(
        text,
        "offered {offered} delivered {delivered} acked {acked}"
    )?;
    writeln!(text, "end")?;
    Ok(text)
}
