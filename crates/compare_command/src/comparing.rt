ghost use Rattle.std.specs.Prelude.{◌≡◌, IfOk};
ghost use Rattle.command_answers.specs.Answer.{reply_of};
ghost use Rattle.command_answers.specs.Stop.{ReturnsStep};
ghost use Rattle.compare_command.specs.Comparing.{compare_step, compared_reply, found_reply};
ghost use Rattle.compare_command.specs.Comparing.{replays_step, saves_step, status_of};
ghost use Rattle.compare_command.specs.Merging.{HasIds};
ghost use Rattle.compare_command.specs.Replays.{replay_differences};
ghost use Rattle.compare_command.specs.Saves.{save_differences};
ghost use Rattle.replay_file.specs.ValidReplay.{IsValidReplay};

use crate::found::Found;
use crate::replays::compare_replays;
use crate::saves::compare_saves;
use base::NoMemory;
use command_answers::{Answer, DONE, MARK_DIFFERS, Stop, begins_save};
use game_save::Saved;
use replay_commands::{read_replay_file, read_save_file};
use replay_file::Replay;
use std::alloc::Global;
use tick_core::GameMaker;

/// The answer to `compare`: the differences of two files with these names and bytes. Both are saves
/// where the first one's bytes begin with `LSSV`, else both are replays. The status is `DONE`
/// exactly where there is no difference, else `MARK_DIFFERS`. A save is refused as `continue`
/// refuses it, a replay as `replay` does, and all faults of the first file come before those of the
/// second. No read fails here.
pub fn compare_answer<'a>(
    alloc: Global,
    first_name: &'a str,
    second_name: &'a str,
    rules: u64,
    maker: &GameMaker,
    first: &[u8],
    second: &[u8],
) -> Result<Answer<'static>, Stop<'a>>
    ensures { ReturnsStep result reply_of
        (compare_step first_name.now second_name.now rules maker.now first.now second.now) }
{
    if begins_save(first) {
        compare_save_files(alloc, first_name, second_name, rules, maker, first, second)
    } else {
        compare_replay_files(alloc, first_name, second_name, rules, first, second)
    }
}

/// The answer of two files of saves.
#[tactic(auto, using(crate::proofs::ReplyLemmas::ids_of))]
fn compare_save_files<'a>(
    alloc: Global,
    first_name: &'a str,
    second_name: &'a str,
    rules: u64,
    maker: &GameMaker,
    first: &[u8],
    second: &[u8],
) -> Result<Answer<'static>, Stop<'a>>
    ensures { ReturnsStep result reply_of
        (saves_step first_name.now second_name.now rules maker.now first.now second.now) }
{
    let a = read_save_file(alloc, first_name, rules, maker, first)?;
    let b = read_save_file(alloc, second_name, rules, maker, second)?;
    Ok(answer_saves(alloc, &a, &b)?)
}

/// The answer of two files of replays.
fn compare_replay_files<'a>(
    alloc: Global,
    first_name: &'a str,
    second_name: &'a str,
    rules: u64,
    first: &[u8],
    second: &[u8],
) -> Result<Answer<'static>, Stop<'a>>
    ensures { ReturnsStep result reply_of
        (replays_step first_name.now second_name.now rules first.now second.now) }
{
    let r = read_replay_file(alloc, first_name, rules, first)?;
    let s = read_replay_file(alloc, second_name, rules, second)?;
    Ok(answer_replays(alloc, &r, &s)?)
}

/// The answer of two saves.
#[tactic(auto, using(crate::proofs::ReplyLemmas::replied))]
fn answer_saves(alloc: Global, a: &Saved, b: &Saved) -> Result<Answer<'static>, NoMemory>
    requires first { HasIds a.now.world }
    requires second { HasIds b.now.world }
    ensures { IfOk result
        (λ answer. reply_of answer ≡ compared_reply (save_differences a.now b.now)) }
{
    let mut found = Found::nothing(alloc);
    compare_saves(&mut found, a, b)?;
    answer_found(found)
}

/// The answer of two replays.
#[tactic(auto, using(crate::proofs::ReplyLemmas::replied))]
fn answer_replays(alloc: Global, r: &Replay, s: &Replay) -> Result<Answer<'static>, NoMemory>
    requires first { IsValidReplay r.now }
    requires second { IsValidReplay s.now }
    ensures { IfOk result
        (λ answer. reply_of answer ≡ compared_reply (replay_differences r.now s.now)) }
{
    let mut found = Found::nothing(alloc);
    compare_replays(&mut found, r, s)?;
    answer_found(found)
}

/// The answer with these differences.
fn answer_found(found: Found) -> Result<Answer<'static>, NoMemory>
    ensures { IfOk result (λ answer. reply_of answer ≡ found_reply found) }
{
    let status = status_of(found.count());
    let text = found.into_text()?;
    Ok(Answer {
        status,
        text: text.into_bytes(),
        write: None,
    })
}

/// The status with so many differences.
fn status_of(count: u64) -> u8
    ensures { result ≡ status_of count }
{
    if count == 0 { DONE } else { MARK_DIFFERS }
}
