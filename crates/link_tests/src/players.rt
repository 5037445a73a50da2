//! Players, by the bytes of their links.
use crate::rows::{bytes_of, cut, text_of};
use crate::steps::StepsMaker;
use game_io::{FailingCall, MemSink, MemSource, Remains, Sink, Source};
use game_orders::Orders;
use match_net::{PlayEnd, play_match};
use std::alloc::Global;
use std::test::Fail;

/// The rules of the tests.
pub(crate) const RULES: u64 = 0xaf63_bd4c_8601_b7df;

/// The bytes of links: how the player of each ends, its client and how many frames it ticked, and
/// what it wrote.
const PLAYERS: &str = "\
one frame, to the end|(Over, 0, 1)|0b00010200dfb701864cbd63af06000200000000000d0003000000000100000000000000010004|080011000102090000000700130000000000000600140001000000
bytes that end early|(BadLink { at: 19, cause: Early }, 0, 1)|0b00010200dfb701864cbd63af06000200000000000d0003000000000100000000000000010004|08001100010201000000070013000000000000
entry of a client that is not there|(BadLink { at: 10, cause: BadClient }, 0, 0)|0b00010200dfb701864cbd63af0600020000000000|08001100010201000000070013050000000000
play after the departure|(BadLink { at: 18, cause: Past }, 0, 0)|0b00010200dfb701864cbd63af0600020000000000|080011000202010000000600140001000000070013000200000000
play beyond the last frame|(BadLink { at: 10, cause: Beyond }, 0, 0)|0b00010200dfb701864cbd63af0600020000000000|08001100020201000000070013000000040000
refused by the server|(Refused { code: 2 }, 0, 0)|0b00010200dfb701864cbd63af|02001202
second play differs|(BadLink { at: 19, cause: Conflict }, 0, 1)|0b00010200dfb701864cbd63af06000200000000000d0003000000000100000000000000010004|080011000102010000000700130000000000000c00130000000000010401000000
second welcome|(BadLink { at: 10, cause: BadWelcome }, 0, 0)|0b00010200dfb701864cbd63af0600020000000000|0800110001020100000008001100010201000000";

/// How a player ends that has one frame without orders, its client and how many frames it ticked.
fn play<I: Source, O: Sink>(
    alloc: Global,
    input: &mut I,
    output: &mut O,
) -> Result<(PlayEnd, u8, u32), Fail> {
    let mut script = Vec::new(alloc);
    script.push(Orders::empty())?;
    let played = play_match(alloc, RULES, &script, &StepsMaker, input, output)?;
    Ok((played.end, played.client, played.frames))
}

/// How such a player ends, by the bytes of its link, and what it wrote.
fn play_link(
    alloc: Global,
    digits: &str,
    failing: Vec<FailingCall>,
) -> Result<((PlayEnd, u8, u32), Vec<u8>), Fail> {
    let mut input = MemSource::new(bytes_of(alloc, digits)?, Vec::new(alloc));
    let mut output = MemSink::new(alloc, failing);
    let played = play(alloc, &mut input, &mut output)?;
    Ok((played, Vec::from_slice(alloc, output.bytes())?))
}

#[test]
fn players(rt: HostRuntime) -> Result<(), Fail> {
    for row in PLAYERS.lines() {
        let (name, row) = cut(row)?;
        let (want, row) = cut(row)?;
        let (answer, digits) = cut(row)?;
        let (played, written) = play_link(rt.alloc(), digits, Vec::new(rt.alloc()))?;
        assert_eq!(rt; text_of(rt.alloc(), &played)?.as_str(), want, "{name}");
        assert_eq!(rt; written, bytes_of(rt.alloc(), answer)?, "{name}");
    }
    Ok(())
}

/// The link fails within the greeting.
#[test]
fn a_link_that_fails_at_once(rt: HostRuntime) -> Result<(), Fail> {
    let mut failing = Vec::new(rt.alloc());
    failing.push(FailingCall {
        call: 0,
        remains: Remains::Prefix(3),
    })?;
    let digits = "080011000102090000000700130000000000000600140001000000";
    let (played, written) = play_link(rt.alloc(), digits, failing)?;
    assert_eq!(rt; played, (PlayEnd::Lost, 0, 0));
    assert_eq!(rt; written, bytes_of(rt.alloc(), "0b0001")?);
    Ok(())
}
