//! Some of the matches on threads: the scripts, and the bots beside them.

use crate::match_case::MatchCase;
use crate::playing::opening_of;
use crate::{more_bots, one_bot};
use frame_core::{Maker, Sim};
use game_bots::GameBots;
use game_io::NoGate;
use match_run::run_with_bots;
use std::alloc::Global;
use std::process::Abort;
use std::sync::Wait;
use std::test::Fail;
use std::thread::Threads;

/// Plays the match of a case on threads, and compares the last world and the columns with what is
/// expected: each bot plays as many frames as the longest script has, and has left.
fn play<R: Abort + Threads + Wait + Sync>(
    rt: &R,
    alloc: Global,
    case: &MatchCase,
) -> Result<(), Fail> {
    let opening = opening_of(rt, alloc, case)?;
    let game = opening.maker.make(alloc, opening.seed, opening.clients)?;
    let first = opening.scripts.clients();
    assert!(rt; game.step_count() == 0);
    assert!(rt; u32::from(game.clients()) == u32::from(first) + u32::from(case.bots));
    let run = run_with_bots(
        rt,
        alloc,
        &opening.scripts,
        game,
        &GameBots,
        case.bots,
        &NoGate,
    )?;
    assert_eq!(rt; run.sim.hash(), case.hash);
    let columns = run.table.close(rt, run.pass);
    for c in first..columns.clients() {
        assert_eq!(rt; columns.plays(c), case.frames);
        assert!(rt; columns.left(c));
    }
    Ok(())
}

#[test]
fn a_harvester_delivers(rt: HostRuntime) -> Result<(), Fail> {
    play(&rt, rt.alloc(), &one_bot::A_HARVESTER_DELIVERS)
}

#[test]
fn three_bots(rt: HostRuntime) -> Result<(), Fail> {
    play(&rt, rt.alloc(), &more_bots::THREE_BOTS)
}

#[test]
fn a_departed_player(rt: HostRuntime) -> Result<(), Fail> {
    play(&rt, rt.alloc(), &more_bots::A_DEPARTED_PLAYER)
}
