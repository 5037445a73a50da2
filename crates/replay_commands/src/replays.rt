ghost use Rattle.std.specs.Prelude.{◌≡◌, ℕ, List, Ok, IfOk};
ghost use Rattle.command_answers.specs.Answer.{reply_of};
ghost use Rattle.command_answers.specs.Stop.{ReturnsStep};
ghost use Rattle.replay_file.specs.Reading.{read_of};
ghost use Rattle.replay_file.specs.ValidReplay.{IsValidReplay};
ghost use Rattle.replay_commands.specs.Replays.{mark_status, migrate_reply, migrate_step};
ghost use Rattle.replay_commands.specs.Replays.{replay_reply, replay_step, replayed_reply};
ghost use Rattle.replay_commands.specs.Replays.{ReplaysAgain};
ghost use Rattle.tick_core.specs.Game.{game_clients, game_start, game_steps};

use crate::marked_game::MarkedGame;
use crate::reading::read_replay_file;
use base::NoMemory;
use command_answers::{Answer, DONE, FileBytes, MARK_DIFFERS, Stop};
use frame_core::Maker;
use replay_file::Replay;
use replay_run::{
    Difference, Migration, Replayed, a_migrated_replay_gives_the_same, migrate, migrated_text,
    refused_text, replay_text, run_replay,
};
use std::alloc::Global;
use tick_core::GameMaker;

/// The status of a replay with this difference.
fn mark_status(difference: &Option<Difference>) -> u8
    ensures { result ≡ mark_status difference.now }
{
    match difference {
        Some(_) => MARK_DIFFERS,
        None => DONE,
    }
}

/// The opening game of a replay.
#[tactic(auto, using(replay_file::proofs::WholeLemmas::few_clients))]
fn opening(alloc: Global, maker: &GameMaker, r: &Replay) -> Result<MarkedGame, NoMemory>
    requires { IsValidReplay r.now }
    ensures opens { IfOk result
        (λ world. world ≡ game_start maker.now r.now.seed r.now.clients) }
    ensures clients { IfOk result (λ world. game_clients world ≡ r.now.clients) }
    ensures fresh { IfOk result (λ world. game_steps world ≡ 0) }
{
    let game = maker.make(alloc, r.seed, r.clients)?;
    Ok(MarkedGame::of(game))
}

/// The answer to `replay` of what the replay of a file gave. The status is `MARK_DIFFERS` exactly
/// where a mark differs, else `DONE`. Out of memory is the only error.
pub fn replayed_answer(
    alloc: Global,
    run: &Replayed<MarkedGame>,
) -> Result<Answer<'static>, NoMemory>
    ensures { IfOk result (λ answer. reply_of answer ≡ replayed_reply run.now) }
{
    let text = replay_text(alloc, run)?;
    Ok(Answer {
        status: mark_status(&run.difference),
        text: text.into_bytes(),
        write: None,
    })
}

/// What is answered to `replay`, of the replay of a file.
fn answer_replay(alloc: Global, maker: &GameMaker, r: &Replay) -> Result<Answer<'static>, NoMemory>
    requires { IsValidReplay r.now }
    ensures { IfOk result (λ answer. reply_of answer ≡ replay_reply maker.now r.now) }
{
    let world = opening(alloc, maker, r)?;
    replayed_answer(alloc, &run_replay(world, r))
}

/// What is answered to `migrate`, of the replay of a file.
fn answer_migrate<'a>(
    alloc: Global,
    to: &'a str,
    maker: &GameMaker,
    r: &Replay,
) -> Result<Answer<'a>, NoMemory>
    requires { IsValidReplay r.now }
    ensures reply { IfOk result
        (λ answer. reply_of answer ≡ migrate_reply maker.now to.now r.now) }
    ensures again { (bytes : List ℕ) → read_of r.now.rules bytes ≡ Ok r.now →
        IfOk result (λ answer. ReplaysAgain r.now.rules maker.now bytes (reply_of answer).write) }
{
    a_migrated_replay_gives_the_same::<MarkedGame>();
    let world = opening(alloc, maker, r)?;
    match migrate(alloc, world, r)? {
        Migration::Differs(difference) => Ok(Answer {
            status: MARK_DIFFERS,
            text: refused_text(alloc, difference)?.into_bytes(),
            write: None,
        }),
        Migration::Migrated {
            bytes,
            frames,
            marks,
        } => Ok(Answer {
            status: DONE,
            text: migrated_text(alloc, frames, marks)?.into_bytes(),
            write: Some(FileBytes { name: to, bytes }),
        }),
    }
}

/// The answer to `replay`: the lines of the replay of a file with this name, run over the opening
/// game that the maker makes of its seed and clients. The status is `MARK_DIFFERS` exactly where a
/// mark differs from the hash, as the replay's version has it, of the world after the frames before
/// it; else it is `DONE`. The file is refused with its first fault, the place of it and the cause,
/// as `read_replay` finds it with this rules number. No read fails here.
pub fn replay_answer<'a>(
    alloc: Global,
    name: &'a str,
    rules: u64,
    maker: &GameMaker,
    bytes: &[u8],
) -> Result<Answer<'static>, Stop<'a>>
    ensures { ReturnsStep result reply_of
        (replay_step name.now rules maker.now bytes.now) }
{
    let r = read_replay_file(alloc, name, rules, bytes)?;
    Ok(answer_replay(alloc, maker, &r)?)
}

/// The answer to `migrate`: the replay of a file with this name is run as by [`replay_answer`], and
/// the file `to` is to hold it in the version that is written, with the same frames and a mark at
/// each of its marks; [`replay_answer`] then answers of it what it answers of the old one. Where a
/// mark differs the status is `MARK_DIFFERS`, and no file is written. It refuses the file that it
/// reads as [`replay_answer`] does.
pub fn migrate_answer<'a>(
    alloc: Global,
    name: &'a str,
    to: &'a str,
    rules: u64,
    maker: &GameMaker,
    bytes: &[u8],
) -> Result<Answer<'a>, Stop<'a>>
    ensures reply { ReturnsStep result reply_of
        (migrate_step name.now to.now rules maker.now bytes.now) }
    ensures again { IfOk result
        (λ answer. ReplaysAgain rules maker.now bytes.now (reply_of answer).write) }
{
    let r = read_replay_file(alloc, name, rules, bytes)?;
    Ok(answer_migrate(alloc, to, maker, &r)?)
}
