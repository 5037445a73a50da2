//! A client that offers its frames far ahead of the match.

ghost use Rattle.std.specs.Prelude.{◌≡◌};

use crate::held::{HELLO, HeldNet, Hold, serve_held_console};
use crate::serving::{Outcome, two_links};
use game_io::MemNet;
use match_serve::LinkEnd;
use std::alloc::{AllocError, Global};
use std::sync::Wait;
use std::test::Fail;
use std::thread::Threads;

/// So many frames are offered at once.
const OFFERED: u32 = 1_000;

/// The bytes of a link whose client greets and plays so many frames, each without orders.
fn plays(alloc: Global, frames: u32) -> Result<Vec<u8>, AllocError> {
    let mut bytes = Vec::from_slice(alloc, HELLO)?;
    for frame in 0..frames {
        bytes.extend_from_slice(b"\x06\x00\x02")?;
        bytes.extend_from_slice(&frame.to_le_bytes())?;
        bytes.push(0)?;
    }
    Ok(bytes)
}

/// How many frames client 1 plays before it waits, what it is sent of client 0 last before the
/// console kicks that, and then the departure of client 0, after so many frames: the invite's lag
/// of 2 and one more than client 1 has played.
const ROWS: [(u32, &[&[u8]], &[&[u8]], u32); 3] = [
    (
        0,
        &[b"\x07\x00\x13\x00\x02\x00\x00\x00\x00"],
        &[b"\x06\x00\x14\x00\x03\x00\x00\x00"],
        3,
    ),
    (
        1,
        &[b"\x07\x00\x13\x00\x03\x00\x00\x00\x00"],
        &[b"\x06\x00\x14\x00\x04\x00\x00\x00"],
        4,
    ),
    (
        3,
        &[b"\x07\x00\x13\x00\x05\x00\x00\x00\x00"],
        &[b"\x06\x00\x14\x00\x06\x00\x00\x00"],
        6,
    ),
];

/// A net whose first link is held so, and whose other one so.
fn held_net<'a>(net: MemNet, hold: &'a Hold, other: &'a Hold) -> HeldNet<'a>
    ensures { result.net ≡ net }
{
    HeldNet {
        net,
        hold,
        other: Some(other),
    }
}

/// Serves a match in which client 0 offers its frames at once and client 1 plays so many. Until the
/// last play was put the console is held, and until the departure was put client 1. Whether the
/// turns of either have ended as well.
fn play_ahead<R: Threads + Wait + Sync>(
    rt: &R,
    alloc: Global,
    played: u32,
    last_play: &'static [&'static [u8]],
    departure: &'static [&'static [u8]],
) -> Result<(Outcome, (bool, bool)), Fail> {
    let first = plays(alloc, OFFERED)?;
    let second = plays(alloc, played)?;
    let links = two_links(alloc, &first, &second, Vec::new(alloc))?;
    let full = Hold::new(last_play);
    let gone = Hold::new(departure);
    let net = held_net(links, &gone, &full);
    let (served, _left) = serve_held_console(rt, alloc, net, b"kick 0\n", &full)?;
    Ok((served, (full.has_ended(), gone.has_ended())))
}

/// Client 0 offers a thousand frames at once. The console kicks it once client 1 was sent the last
/// one that may be put, and client 1 leaves once it was sent the departure. With a reader that puts
/// less the turns end; with one that puts more, or a kick that holds later, they end too.
#[test]
fn a_client_that_is_far_ahead(rt: HostRuntime) -> Result<(), Fail> {
    for (played, last_play, departure, put) in ROWS {
        let (served, ended) = play_ahead(&rt, rt.alloc(), played, last_play, departure)?;
        let (ahead, other) = served.seen;
        let ends = [LinkEnd::Kicked(put), LinkEnd::Ended];
        assert_eq!(rt; (ahead.plays, other.plays), (put, played));
        assert_eq!(rt; served.ends.as_slice(), ends.as_slice());
        assert_eq!(rt; ended, (false, false));
    }
    Ok(())
}
