//! Bots over links. The lag is one frame, so a bot seals each frame by the world that has ticked
//! all frames before it, as in a match on one machine: it writes what `bot_orders` gives for these
//! worlds, and ends with the world of that match.

ghost use Rattle.std.specs.Prelude.{◌≤◌};
ghost use Rattle.game_orders.specs.declared.limits.TheConstants.{MAX_CLIENTS};

use crate::match_case::MatchCase;
use crate::one_bot;
use crate::playing::{Opening, frame_of, opening_of, step};
use frame_core::{Maker, Sim};
use game_bots::GameBots;
use game_io::{MemSink, MemSource};
use game_orders::{Entry, Frame};
use match_net::{Bot, PlayEnd, play_match_from};
use order_packets::{Down, Up, VERSION, write_down, write_up};
use std::alloc::Global;
use std::process::Abort;
use std::test::Fail;

/// The number of the rules in these matches.
const RULES: u64 = 7;

/// A link of the last client, a bot: what comes down, and what the bot is to write.
#[derive(Drop)]
struct Link {
    down: Vec<u8>,
    up: Vec<u8>,
}

/// A link of so many clients after the welcome.
fn welcomed(alloc: Global, opening: &Opening) -> Result<Link, Fail> {
    let (mut down, mut up) = (Vec::new(alloc), Vec::new(alloc));
    let version = VERSION;
    write_up(
        &mut up,
        &Up::Hello {
            version,
            rules: RULES,
        },
    )?;
    write_down(
        &mut down,
        &Down::Welcome {
            client: opening.clients.saturating_sub(1),
            clients: opening.clients,
            lag: 1,
            seed: opening.seed,
        },
    )?;
    Ok(Link { down, up })
}

/// The frame at which a client leaves: after its script, or with the match if it is the bot.
fn last_of(opening: &Opening, client: u8, frames: u32) -> usize {
    if client < opening.scripts.clients() {
        opening.scripts.plays(client).len()
    } else {
        frames as usize
    }
}

/// Sends down the entry of a client for a frame.
fn send_entry(link: &mut Link, client: u8, frame: u32, entry: Entry) -> Result<(), Fail> {
    let entry = Down::Entry {
        client,
        frame,
        entry,
    };
    Ok(write_down(&mut link.down, &entry)?)
}

/// Sends down what the clients have for a frame: of one that has left its departure, once.
fn send_down(
    link: &mut Link,
    case: &MatchCase,
    opening: &Opening,
    frame: &Frame,
    n: u32,
) -> Result<(), Fail> {
    for client in 0..opening.clients {
        if n as usize <= last_of(opening, client, case.frames) {
            let Some(entry) = frame.get(client as usize) else {
                return Err(Fail::new("a client has no entry"));
            };
            send_entry(link, client, n, entry.copy())?;
        }
    }
    Ok(())
}

/// What the bot writes for a frame: its orders.
fn send_up(link: &mut Link, opening: &Opening, frame: &Frame, n: u32) -> Result<(), Fail> {
    match frame.get(opening.clients.saturating_sub(1) as usize) {
        Some(Entry::Play(orders)) => {
            let orders = orders.copy();
            write_up(&mut link.up, &Up::Orders { frame: n, orders })?;
            Ok(())
        }
        _ => Err(Fail::new("the last client is no bot")),
    }
}

/// The link of the bot of a case, and the hash of the last world.
fn link_of(
    rt: &impl Abort,
    alloc: Global,
    case: &MatchCase,
    opening: &Opening,
) -> Result<(Link, u64), Fail>
    requires least { 1 ≤ opening.now.clients }
    requires most { opening.now.clients ≤ MAX_CLIENTS }
{
    let mut link = welcomed(alloc, opening)?;
    let mut game = opening.maker.make(alloc, opening.seed, opening.clients)?;
    for n in 0..case.frames {
        let frame = frame_of(rt, alloc, &game, &opening.scripts, n)?;
        send_up(&mut link, opening, &frame, n)?;
        send_down(&mut link, case, opening, &frame, n)?;
        step(rt, &mut game, &frame);
        let hash = game.hash();
        write_up(&mut link.up, &Up::Sync { frame: n, hash })?;
    }
    write_up(&mut link.up, &Up::Bye)?;
    for client in 0..opening.clients {
        if last_of(opening, client, case.frames) == case.frames as usize {
            send_entry(&mut link, client, case.frames, Entry::Leave)?;
        }
    }
    Ok((link, game.hash()))
}

/// Plays the bot of a case over its link, and compares what it writes, and its last world.
fn play_over(rt: &impl Abort, alloc: Global, case: &MatchCase) -> Result<(), Fail> {
    let opening = opening_of(rt, alloc, case)?;
    let (link, hash) = link_of(rt, alloc, case, &opening)?;
    assert_eq!(rt; hash, case.hash);
    let mut input = MemSource::new(link.down, Vec::new(alloc));
    let mut output = MemSink::new(alloc, Vec::new(alloc));
    let rule = &GameBots;
    let bot = Bot {
        rule,
        frames: case.frames,
    };
    let played = play_match_from(alloc, RULES, &bot, &opening.maker, &mut input, &mut output)?;
    assert_eq!(rt; played.end, PlayEnd::Over);
    assert_eq!(rt; played.frames, case.frames);
    assert_eq!(rt; output.bytes(), link.up.as_slice());
    match played.sim {
        Some(world) => assert_eq!(rt; world.hash(), case.hash),
        None => return Err(Fail::new("there is no world")),
    }
    Ok(())
}

#[test]
fn a_harvester_delivers(rt: HostRuntime) -> Result<(), Fail> {
    play_over(&rt, rt.alloc(), &one_bot::A_HARVESTER_DELIVERS)
}

#[test]
fn without_cash(rt: HostRuntime) -> Result<(), Fail> {
    play_over(&rt, rt.alloc(), &one_bot::WITHOUT_CASH)
}

#[test]
fn two_factories(rt: HostRuntime) -> Result<(), Fail> {
    play_over(&rt, rt.alloc(), &one_bot::TWO_FACTORIES)
}
