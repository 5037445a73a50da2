ghost use Rattle.std.specs.Prelude.{◌≡◌, ◌<◌, ◌≤◌, ◌++◌, [], ◌∷◌, List, string_bytes, OnOk, OnErr, length};
ghost use Rattle.std.specs.Fmt.{decimal};
ghost use Rattle.drill.specs.Text.{place_text, seal_fault_text};
ghost use Rattle.drill_words.specs.Hash.{hash_digits, hex_digit, hex_from};
ghost use Rattle.drill.specs.Text.{entering_text};
ghost use Rattle.drill.specs.Text.{reported_text, leaving_text, tick_text, outcome_text};
ghost use Rattle.drill.specs.Text.{outcome_line, cash_text};
ghost use Rattle.drill.specs.Text.{world_text, column_line, peer_head, server_head, alarm_line};
ghost use Rattle.drill.specs.Text.{end_line};

use crate::entering::Entering;
use crate::outcome::Outcome;
use base::NoMemory;
use drill_words::HASH_DIGITS;
use frame_core::{Leaving, Sim, TickAnswer};
use itoa::Buffer;
use peer_core::SealFault;
use server_core::{Alarm, Reported};
use std::fmt::Write;

/// Adds the line of the event of this number.
#[tactic(auto, unfolding(crate::specs::Text::outcome_line))]
pub(crate) fn add_outcome_line(
    text: &mut String,
    number: u32,
    outcome: &Outcome,
) -> Result<(), NoMemory>
    ensures { OnOk result (string_bytes text.new
        ≡ string_bytes text.old ++ outcome_line number outcome.now) }
{
    add_number(text, number)?;
    text.push(' ')?;
    add_outcome(text, outcome)?;
    text.push('\n')
}

/// Adds a number, in less time than `write!` takes: there may be a line for each of many events.
fn add_number(text: &mut String, n: u32) -> Result<(), NoMemory>
    ensures { OnOk result (string_bytes text.new ≡ string_bytes text.old ++ decimal n) }
{
    if n < 10 {
        return text.push(digit_char(n as u8));
    }
    let mut buffer = Buffer::new();
    text.push_str(buffer.format(n))
}

/// A decimal digit.
fn digit_char(digit: u8) -> char
    requires { digit < 10 }
    ensures value { result ∷ [] ≡ decimal digit }
    ensures ascii { result < 128 }
{
    char::from(b'0' + digit)
}

/// Adds a client's frame after a word.
fn add_place(text: &mut String, word: &str, client: u8, frame: u32) -> Result<(), NoMemory>
    ensures { OnOk result (string_bytes text.new
        ≡ string_bytes text.old ++ place_text word.now client frame) }
{
    text.push_str(word)?;
    text.push(' ')?;
    add_number(text, u32::from(client))?;
    text.push(' ')?;
    add_number(text, frame)
}

/// Adds the result of an event.
fn add_outcome(text: &mut String, outcome: &Outcome) -> Result<(), NoMemory>
    ensures { OnOk result (string_bytes text.new
        ≡ string_bytes text.old ++ outcome_text outcome.now) }
{
    match outcome {
        Outcome::Sealed(frame) => {
            text.push_str("sealed ")?;
            add_number(text, *frame)
        }
        Outcome::NotSealed(fault) => add_seal_fault(text, fault),
        Outcome::NoPacket => write!(text, "no packet"),
        Outcome::Entered {
            client,
            frame,
            entering,
        } => add_entering(text, *client, *frame, *entering),
        Outcome::Reported {
            client,
            frame,
            reported,
        } => add_reported(text, *client, *frame, reported),
        Outcome::Leaves { client, leaving } => add_leaving(text, *client, leaving),
        Outcome::NoEntry => write!(text, "no entry"),
        Outcome::Arrived { client, frame } => add_place(text, "kept", *client, *frame),
        Outcome::Repeated { client, frame } => add_place(text, "repeat", *client, *frame),
        Outcome::Ticking(answer) => add_tick(text, answer),
        Outcome::ReportSent(frame) => write!(text, "sent {frame}"),
        Outcome::NoFrame => write!(text, "no frame"),
        Outcome::ByeSent => write!(text, "bye"),
    }
}

/// Adds why a peer could not seal.
fn add_seal_fault(text: &mut String, fault: &SealFault) -> Result<(), NoMemory>
    ensures { OnOk result (string_bytes text.new
        ≡ string_bytes text.old ++ seal_fault_text fault.now) }
{
    match fault {
        SealFault::TooEarly => write!(text, "too early"),
        SealFault::LeftAlready => write!(text, "left already"),
        SealFault::MatchFull => write!(text, "match full"),
    }
}

/// Adds what a column answered to orders.
fn add_entering(
    text: &mut String,
    client: u8,
    frame: u32,
    entering: Entering,
) -> Result<(), NoMemory>
    ensures { OnOk result (string_bytes text.new
        ≡ string_bytes text.old ++ entering_text client frame entering) }
{
    match entering {
        Entering::Fixed => add_place(text, "entry", client, frame),
        Entering::Repeat => add_place(text, "repeat", client, frame),
        Entering::Conflict => write!(text, "conflict {client} {frame}"),
        Entering::Left(at) => write!(text, "left {client} {at}"),
        Entering::Ahead(length) => write!(text, "ahead {client} {frame} {length}"),
        Entering::Full => write!(text, "full {client}"),
    }
}

/// Adds what the board answered to a report.
fn add_reported(
    text: &mut String,
    client: u8,
    frame: u32,
    reported: &Reported,
) -> Result<(), NoMemory>
    ensures { OnOk result (string_bytes text.new
        ≡ string_bytes text.old ++ reported_text client frame reported.now) }
{
    match reported {
        Reported::Kept => write!(text, "report {client} {frame}"),
        Reported::Repeat => write!(text, "report repeated {client} {frame}"),
        Reported::Beyond => write!(text, "report beyond {client} {frame}"),
    }
}

/// Adds what a column answered to a departure.
fn add_leaving(text: &mut String, client: u8, leaving: &Leaving) -> Result<(), NoMemory>
    ensures { OnOk result (string_bytes text.new
        ≡ string_bytes text.old ++ leaving_text client leaving.now) }
{
    match leaving {
        Leaving::Fixed(at) => write!(text, "leave {client} {at}"),
        Leaving::Already(at) => write!(text, "already {client} {at}"),
    }
}

/// Adds what a tick answered.
fn add_tick(text: &mut String, answer: &TickAnswer) -> Result<(), NoMemory>
    ensures { OnOk result (string_bytes text.new ≡ string_bytes text.old ++ tick_text answer.now) }
{
    match answer {
        TickAnswer::Ticked(frame) => {
            text.push_str("ticked ")?;
            add_number(text, *frame)
        }
        TickAnswer::NotYet(client) => write!(text, "not yet {client}"),
        TickAnswer::Over => write!(text, "over"),
    }
}

/// Adds the line of a client's column.
#[tactic(auto, unfolding(crate::specs::Text::column_line))]
pub(crate) fn add_column_line(
    text: &mut String,
    client: u8,
    length: u32,
    left: bool,
) -> Result<(), NoMemory>
    ensures { OnOk result (string_bytes text.new
        ≡ string_bytes text.old ++ column_line client length left) }
{
    write!(text, "column {client} {length}")?;
    if left {
        writeln!(text, " left")
    } else {
        writeln!(text, " playing")
    }
}

/// Adds the beginning of a peer's line.
#[tactic(auto, unfolding(crate::specs::Text::peer_head))]
pub(crate) fn add_peer_head(
    text: &mut String,
    peer: u8,
    ticked: u32,
    sealed: u32,
) -> Result<(), NoMemory>
    ensures { OnOk result (string_bytes text.new
        ≡ string_bytes text.old ++ peer_head peer ticked sealed) }
{
    write!(text, "peer {peer} frames {ticked} sealed {sealed}")
}

/// Adds the beginning of the server's line, which [`crate::add_world`] ends. It fails only where it
/// is out of memory, and then nothing changes.
#[tactic(auto, unfolding(crate::specs::Text::server_head))]
pub fn add_server_head(text: &mut String, ticked: u32) -> Result<(), NoMemory>
    ensures added { OnOk result
        (string_bytes text.new ≡ string_bytes text.old ++ server_head ticked) }
    ensures err { OnErr result (string_bytes text.new ≡ string_bytes text.old) }
{
    let head = format!(in *text.allocator(); "server frames {ticked}")?;
    text.push_str(head.as_str())
}

/// Adds the line of a client's alarm.
#[tactic(auto, unfolding(crate::specs::Text::alarm_line))]
pub(crate) fn add_alarm_line(text: &mut String, client: u8, alarm: Alarm) -> Result<(), NoMemory>
    ensures { OnOk result (string_bytes text.new
        ≡ string_bytes text.old ++ alarm_line client alarm) }
{
    let frame = alarm.frame;
    write!(text, "alarm {client} frame {frame} got ")?;
    write_hash(text, alarm.got)?;
    write!(text, " want ")?;
    write_hash(text, alarm.want)?;
    writeln!(text)
}

/// Adds the last line of a report, `end`. It fails only where it is out of memory, and then nothing
/// changes.
#[tactic(auto, unfolding(crate::specs::Text::end_line))]
pub fn add_end_line(text: &mut String) -> Result<(), NoMemory>
    ensures added { OnOk result (string_bytes text.new ≡ string_bytes text.old ++ end_line) }
    ensures err { OnErr result (string_bytes text.new ≡ string_bytes text.old) }
{
    text.push_str("end\n")
}

/// Adds what [`crate::add_world`] adds. Out of memory, only a part of it may be there.
#[tactic(auto, unfolding(crate::specs::Text::world_text))]
pub(crate) fn write_world<S: Sim>(text: &mut String, world: &S) -> Result<(), NoMemory>
    ensures { OnOk result (string_bytes text.new
        ≡ string_bytes text.old ++ world_text S.hash_of S.summary_of world.now) }
{
    let hash = world.hash();
    let summary = world.summary();
    let actors = summary.actors;
    write!(text, " hash ")?;
    write_hash(text, hash)?;
    write!(text, " actors {actors} cash")?;
    add_cash(text, summary.cash.as_slice())?;
    writeln!(text)
}

/// Adds each amount after a space.
fn add_cash(text: &mut String, each: &[u32]) -> Result<(), NoMemory>
    ensures { OnOk result (string_bytes text.new ≡ string_bytes text.old ++ cash_text each.now) }
{
    for cash in each {
        write!(text, " {cash}")?;
    }
    Ok(())
}

/// Adds a hash, as 16 hexadecimal digits.
#[tactic(auto, unfolding(drill_words::specs::Hash::hash_digits))]
pub(crate) fn write_hash(text: &mut String, hash: u64) -> Result<(), NoMemory>
    ensures { OnOk result (string_bytes text.new ≡ string_bytes text.old ++ hash_digits hash) }
{
    add_hex(text, HASH_DIGITS, hash)
}

/// Adds the last so many hexadecimal digits of a number.
fn add_hex(text: &mut String, digits: usize, n: u64) -> Result<(), NoMemory>
    ensures { OnOk result (string_bytes text.new ≡ string_bytes text.old ++ hex_from digits n) }
{
    if digits == 0 {
        return Ok(());
    }
    add_hex(text, digits - 1, n / 16)?;
    text.push(hex_char((n % 16) as u8))?;
    Ok(())
}

/// A hexadecimal digit, in lower case.
fn hex_char(digit: u8) -> char
    requires { digit < 16 }
    ensures value { result ≡ hex_digit digit }
    ensures ascii { result < 128 }
{
    char::from(b"0123456789abcdef"[digit as usize])
}
