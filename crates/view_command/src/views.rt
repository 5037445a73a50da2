ghost use Rattle.std.specs.Prelude.{◌≡◌, ◌<◌, IfOk, string_bytes};
ghost use Rattle.command_answers.specs.Answer.{reply_of};
ghost use Rattle.command_answers.specs.Reply.{done};
ghost use Rattle.command_answers.specs.Stop.{IsRefusal, ReturnsStep};
ghost use Rattle.replay_file.specs.ValidReplay.{IsValidReplay};
ghost use Rattle.replay_run.specs.Rerun.{frame_count};
ghost use Rattle.shroud.specs.ShroudState.{shrouded, updated};
ghost use Rattle.tick_core.specs.Game.{game_clients, game_start, game_steps};
ghost use Rattle.view_command.specs.Views.{client_step, no_such_client, view_step, view_text};
ghost use Rattle.view_command.specs.Watching.{HasWatched};

use crate::text::shown_text;
use base::NoMemory;
use command_answers::{Answer, DONE, Stop};
use frame_core::Maker;
use game_bots::GameActors;
use replay_commands::read_replay_file;
use replay_file::Replay;
use replay_run::Playback;
use shroud::Shroud;
use std::alloc::Global;
use tick_core::{Game, GameMaker};

/// Lets the shroud follow the game to its world. No game has more actors than a shroud has memory
/// for.
fn follow(shroud: &mut Shroud, game: &Game)
    ensures { shroud.new ≡ updated shroud.old game.now.world.actors shroud.new.touched }
{
    // by its clause they are few
    let _few = game.actor_count();
    shroud.update_from(&GameActors { game });
}

/// The opening game of a replay.
#[tactic(auto, using(replay_file::proofs::WholeLemmas::few_clients))]
fn opening(alloc: Global, maker: &GameMaker, r: &Replay) -> Result<Game, NoMemory>
    requires { IsValidReplay r.now }
    ensures opens { IfOk result (λ game. game ≡ game_start maker.now r.now.seed r.now.clients) }
    ensures clients { IfOk result (λ game. game_clients game ≡ r.now.clients) }
    ensures fresh { IfOk result (λ game. game_steps game ≡ 0) }
{
    maker.without_kept_hashes()?.make(alloc, r.seed, r.clients)
}

/// Lets a new shroud follow a replay, from its opening game to the end, and returns how many frames
/// it has.
fn watch(shroud: &mut Shroud, game: Game, r: &Replay) -> u32
    requires valid { IsValidReplay r.now }
    requires clients { game_clients game ≡ r.now.clients }
    requires fresh { game_steps game ≡ 0 }
    requires opens { game ≡ game_start game.setup r.now.seed r.now.clients }
    requires shrouded { shroud.old
        ≡ shrouded game.setup.rules game.setup.map.width game.setup.map.height r.now.clients }
    ensures frames { result ≡ frame_count r.now }
    ensures watched { HasWatched game.setup r.now (frame_count r.now) shroud.new }
{
    let mut playback = Playback::begin(game, r);
    follow(shroud, playback.world());
    while playback.step() {
        follow(shroud, playback.world());
    }
    playback.frames()
}

/// What is printed of a client of a replay's match.
fn text_of(alloc: Global, client: u8, maker: &GameMaker, r: &Replay) -> Result<String, NoMemory>
    requires valid { IsValidReplay r.now }
    requires client { client < r.now.clients }
    ensures { IfOk result (λ text. string_bytes text ≡ view_text maker.now r.now client) }
{
    let (width, height) = (maker.map().width, maker.map().height);
    let rules = maker.rules().clone()?;
    let mut shroud = Shroud::create(alloc, rules, width, height, r.clients)?;
    let game = opening(alloc, maker, r)?;
    let frames = watch(&mut shroud, game, r);
    shown_text(alloc, &shroud, client, frames, width, height)
}

/// Refuses a client that the match has not.
fn no_such_client<'a>() -> Stop<'a>
    ensures { IsRefusal result no_such_client }
{
    Stop::Refused {
        name: "view",
        place: 0,
        cause: "NoSuchClient",
    }
}

/// What is answered of a client, of the replay of a file.
fn answer_client(
    alloc: Global,
    client: u32,
    maker: &GameMaker,
    r: &Replay,
) -> Result<Answer<'static>, Stop<'static>>
    requires { IsValidReplay r.now }
    ensures { ReturnsStep result reply_of (client_step maker.now r.now client) }
{
    if client >= u32::from(r.clients) {
        return Err(no_such_client());
    }
    let text = text_of(alloc, client as u8, maker, r)?;
    Ok(Answer {
        status: DONE,
        text: text.into_bytes(),
        write: None,
    })
}

/// The answer to `view`: the cells of the map as a client sees them after the replay of a file with
/// this name, run over the opening game that the maker makes of its seed and clients. Marks aren't
/// compared. The file is refused with its first fault, the place of it and the cause, as
/// `read_replay` finds it with this rules number; then `view` with `NoSuchClient` at 0, exactly
/// where the client is not below the replay's clients. No read fails here.
pub fn view_answer<'a>(
    alloc: Global,
    name: &'a str,
    client: u32,
    rules: u64,
    maker: &GameMaker,
    bytes: &[u8],
) -> Result<Answer<'static>, Stop<'a>>
    ensures { ReturnsStep result reply_of
        (view_step name.now client rules maker.now bytes.now) }
{
    let r = read_replay_file(alloc, name, rules, bytes)?;
    answer_client(alloc, client, maker, &r)
}
