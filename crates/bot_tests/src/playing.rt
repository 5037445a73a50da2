//! How a match with bots is played frame by frame, each bot by the world as it is.

ghost use Rattle.std.specs.Prelude.{◌≤◌, ◌<◌, IfOk};
ghost use Rattle.game_orders.specs.declared.limits.TheConstants.{MAX_CLIENTS};
ghost use Rattle.tick_core.specs.Game.{game_clients};

use crate::match_case::MatchCase;
use bot_player::{bot_orders, bot_orders_from};
use drill_words::{MAX_DRILL_BYTES, Scripts, read_script};
use frame_core::{MAX_STEPS, Maker, Sim};
use game_model::{Actor, Map};
use game_orders::{Entry, Frame, MAX_CLIENTS, Orders};
use map_grid::read_map;
use rule_traits::{Rules, type_rules};
use shroud::LendsActors;
use std::alloc::Global;
use std::process::Abort;
use std::rc::Rc;
use std::test::Fail;
use tick_core::{Game, GameMaker};
use yaml_lines::{Forest, parse};
use yaml_merge::resolve;

/// The actors of a game, as it lends them.
#[derive(Drop)]
struct GameActors<'a> {
    game: &'a Game,
}

impl<'a> LendsActors for GameActors<'a> {
    ghost actors_of = { λ lent. lent.game.now.world.actors };

    fn actor_count(&self) -> usize {
        self.game.actor_count()
    }

    fn actor_at(&self, i: usize) -> Option<&Actor> {
        self.game.actor_at(i)
    }
}

/// The resolved forest of a text.
fn forest_of(alloc: Global, text: &str) -> Result<Forest, Fail> {
    let mut files = Vec::new(alloc);
    files.push(parse(alloc, 0, text.as_bytes())?)?;
    Ok(resolve(alloc, files.as_slice())?)
}

/// The orders of a bot, by the game itself and by a copy of its world. Both must be the same.
fn orders_of(rt: &impl Abort, alloc: Global, game: &Game, c: u8) -> Result<Orders, Fail>
    requires { c < game_clients game.now }
{
    let lent = bot_orders_from(game.rules(), &game.head().cash, &GameActors { game }, c);
    let world = game.snapshot(alloc)?;
    let copied = bot_orders(game.rules(), game.map(), &world, c);
    assert!(rt; lent == copied);
    Ok(lent)
}

/// The entry of a client for a frame: a bot's, or the script's, which ends with the departure.
fn entry_of(
    rt: &impl Abort,
    alloc: Global,
    game: &Game,
    scripts: &Scripts,
    c: u8,
    n: u32,
) -> Result<Entry, Fail>
    requires { c < game_clients game.now }
{
    if c >= scripts.clients() {
        return Ok(Entry::Play(orders_of(rt, alloc, game, c)?));
    }
    let plays = scripts.plays(c);
    if n as usize >= plays.len() {
        return Ok(Entry::Leave);
    }
    Ok(Entry::Play(plays.get(n as usize)))
}

/// The entries of all clients for a frame.
pub(crate) fn frame_of(
    rt: &impl Abort,
    alloc: Global,
    game: &Game,
    scripts: &Scripts,
    n: u32,
) -> Result<Frame, Fail> {
    let mut frame = Frame::empty();
    for c in 0..game.clients() {
        assert!(rt; frame.len() < MAX_CLIENTS as usize);
        frame.push(entry_of(rt, alloc, game, scripts, c, n)?);
    }
    Ok(frame)
}

/// Steps a game by a frame with an entry for each client, if it was not stepped as often as a game
/// can be.
pub(crate) fn step(rt: &impl Abort, game: &mut Game, frame: &Frame) {
    assert!(rt; frame.len() == game.clients() as usize);
    if game.step_count() < MAX_STEPS {
        game.step(frame);
    }
}

/// What a match begins with: the maker of its games, its seed, what its first clients play, and the
/// number of all clients.
#[derive(Drop)]
pub(crate) struct Opening {
    pub(crate) maker: GameMaker,
    pub(crate) seed: u32,
    pub(crate) scripts: Scripts,
    pub(crate) clients: u8,
}

/// What the match of a case begins with.
pub(crate) fn opening_of(rt: &impl Abort, alloc: Global, case: &MatchCase) -> Result<Opening, Fail>
    ensures { IfOk result (λ opening. (1 ≤ opening.clients) × (opening.clients ≤ MAX_CLIENTS)) }
{
    let (rules, _) = type_rules(alloc, &forest_of(alloc, case.rules)?)?;
    let map = read_map(alloc, &forest_of(alloc, case.map)?, &rules)?;
    assert!(rt; case.script.len() <= MAX_DRILL_BYTES as usize);
    let (seed, scripts) = read_script(alloc, case.script.as_bytes(), false)?;
    let clients = scripts.clients().saturating_add(case.bots);
    assert!(rt; clients <= MAX_CLIENTS);
    Ok(Opening {
        maker: GameMaker::new(Rc::new(alloc, rules)?, Rc::new(alloc, map)?),
        seed,
        scripts,
        clients,
    })
}

/// Plays the match of a case to its end, and compares the last world with the expected one.
pub(crate) fn play(rt: &impl Abort, alloc: Global, case: &MatchCase) -> Result<(), Fail> {
    let opening = opening_of(rt, alloc, case)?;
    let mut game = opening.maker.make(alloc, opening.seed, opening.clients)?;
    for n in 0..case.frames {
        let frame = frame_of(rt, alloc, &game, &opening.scripts, n)?;
        step(rt, &mut game, &frame);
    }
    assert_eq!(rt; game.hash(), case.hash);
    let summary = game.summary();
    assert_eq!(rt; summary.actors, case.actors);
    assert_eq!(rt; summary.cash.as_slice(), case.cash);
    Ok(())
}
