//! The matches with bots, each played to its end.

use crate::playing::play;
use crate::{more_bots, one_bot};
use std::test::Fail;

#[test]
fn a_harvester_delivers(rt: HostRuntime) -> Result<(), Fail> {
    play(&rt, rt.alloc(), &one_bot::A_HARVESTER_DELIVERS)
}

#[test]
fn without_cash(rt: HostRuntime) -> Result<(), Fail> {
    play(&rt, rt.alloc(), &one_bot::WITHOUT_CASH)
}

#[test]
fn neutral_actors_between(rt: HostRuntime) -> Result<(), Fail> {
    play(&rt, rt.alloc(), &one_bot::NEUTRAL_ACTORS_BETWEEN)
}

#[test]
fn two_factories(rt: HostRuntime) -> Result<(), Fail> {
    play(&rt, rt.alloc(), &one_bot::TWO_FACTORIES)
}

#[test]
fn two_bots(rt: HostRuntime) -> Result<(), Fail> {
    play(&rt, rt.alloc(), &more_bots::TWO_BOTS)
}

#[test]
fn three_bots(rt: HostRuntime) -> Result<(), Fail> {
    play(&rt, rt.alloc(), &more_bots::THREE_BOTS)
}

#[test]
fn a_departed_player(rt: HostRuntime) -> Result<(), Fail> {
    play(&rt, rt.alloc(), &more_bots::A_DEPARTED_PLAYER)
}
