//! The text and the status of a match that was played over a link.
ghost use Rattle.std.specs.Prelude.{◌≡◌, ◌++◌, IfOk, OnOk, codes, option_map, string_bytes};
ghost use Rattle.drill.specs.Text.{end_line};
ghost use Rattle.command_answers.specs.Answer.{reply_of};
ghost use Rattle.command_answers.specs.Reply.{done, printed};
ghost use Rattle.command_answers.specs.declared.statuses.TheConstants.{REFUSED_FILE};
ghost use Rattle.link_commands.specs.CauseNames.{play_name};
ghost use Rattle.link_commands.specs.PlayText.{link_fault, link_refusal, play_head, play_line};
ghost use Rattle.link_commands.specs.PlayText.{played_reply, server_refusal};

use crate::causes::play_name;
use base::NoMemory;
use command_answers::{Answer, DONE, FAULT_READ, REFUSED_FILE};
use drill::{add_end_line, add_world};
use frame_core::Sim;
use match_net::{PlayCause, PlayEnd, Played};
use std::alloc::Global;
use std::fmt::Write;

/// The answer of `play` by how the match ended: the world of a match that is over; the refusal of
/// the server; the refusal of the link's bytes, and the world that the player has by then, if it
/// was welcomed; or that the link failed.
pub(crate) fn played_answer<S: Sim>(
    alloc: Global,
    played: &Played<S>,
) -> Result<Answer<'static>, NoMemory>
    ensures { IfOk result (λ answer. reply_of answer
        ≡ played_reply S.hash_of S.summary_of played.now.end played.now.client played.now.frames
        played.now.sim) }
{
    match played.end {
        PlayEnd::Over => over_answer(alloc, played),
        PlayEnd::Refused { code } => server_answer(alloc, code),
        PlayEnd::BadLink { at, cause } => refusal_answer(alloc, at, cause, played),
        PlayEnd::Lost => lost_answer(alloc),
    }
}

/// A text with its status, and no file.
fn answer(status: u8, text: String) -> Answer<'static>
    ensures { reply_of result ≡ printed status (string_bytes text) }
{
    Answer {
        status,
        text: text.into_bytes(),
        write: None,
    }
}

/// The answer where the match is over.
fn over_answer<S: Sim>(alloc: Global, played: &Played<S>) -> Result<Answer<'static>, NoMemory>
    ensures { IfOk result (λ answer. reply_of answer
        ≡ done (play_line S.hash_of S.summary_of played.now.client played.now.frames
        played.now.sim ++ end_line)) }
{
    let mut text = String::new(alloc);
    add_play_line(&mut text, played)?;
    add_end_line(&mut text)?;
    Ok(answer(DONE, text))
}

/// The answer where the server refused the player.
#[tactic(auto, unfolding(crate::specs::PlayText::server_refusal))]
fn server_answer(alloc: Global, code: u8) -> Result<Answer<'static>, NoMemory>
    ensures { IfOk result
        (λ answer. reply_of answer ≡ printed REFUSED_FILE (server_refusal code)) }
{
    let mut text = String::new(alloc);
    writeln!(text, "refused server {code}")?;
    Ok(answer(REFUSED_FILE, text))
}

/// The answer where the bytes of the link were refused.
fn refusal_answer<S: Sim>(
    alloc: Global,
    at: u64,
    cause: PlayCause,
    played: &Played<S>,
) -> Result<Answer<'static>, NoMemory>
    ensures { IfOk result (λ answer. reply_of answer
        ≡ printed REFUSED_FILE (link_refusal at (play_name cause) ++ play_line S.hash_of
        S.summary_of played.now.client played.now.frames played.now.sim)) }
{
    let mut text = refusal_line(alloc, at, play_name(cause))?;
    add_play_line(&mut text, played)?;
    Ok(answer(REFUSED_FILE, text))
}

/// The answer where the net or the link failed.
pub fn lost_answer(alloc: Global) -> Result<Answer<'static>, NoMemory>
    ensures { IfOk result (λ answer. reply_of answer ≡ link_fault) }
{
    Ok(answer(FAULT_READ, String::from_str(alloc, "fault link\n")?))
}

/// The line that refuses the bytes of the link.
#[tactic(auto, unfolding(crate::specs::PlayText::link_refusal))]
fn refusal_line(alloc: Global, at: u64, cause: &str) -> Result<String, NoMemory>
    ensures { IfOk result (λ line. string_bytes line ≡ link_refusal at cause.now) }
{
    let mut line = String::new(alloc);
    writeln!(line, "refused link {at} {cause}")?;
    Ok(line)
}

/// Adds the player's line, if it was welcomed.
fn add_play_line<S: Sim>(text: &mut String, played: &Played<S>) -> Result<(), NoMemory>
    ensures { OnOk result (string_bytes text.new ≡ string_bytes text.old
        ++ play_line S.hash_of S.summary_of played.now.client played.now.frames played.now.sim) }
{
    match &played.sim {
        Some(world) => add_player(text, played.client, played.frames, world),
        None => Ok(()),
    }
}

/// Adds the line of a player with this world.
#[tactic(auto, unfolding(crate::specs::PlayText::play_head))]
fn add_player<S: Sim>(text: &mut String, client: u8, frames: u32, world: &S) -> Result<(), NoMemory>
    ensures { OnOk result (string_bytes text.new ≡ string_bytes text.old
        ++ play_line S.hash_of S.summary_of client frames (Some world.now)) }
{
    write!(text, "play {client} frames {frames}")?;
    add_world(text, world)
}
