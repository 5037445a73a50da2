//! What a match logs.
ghost use Rattle.std.specs.Prelude.{◌≡◌, []};

use crate::held::{HELLO_AND_BYE, HeldNet, Hold};
use crate::serving::{Outcome, serve_logged, two_links};
use game_io::{MatchEvent, MemNet, MemWatch, NoGreeting, Watch};
use match_serve::LinkEnd;
use std::alloc::Global;
use std::sync::Wait;
use std::sync::atomic::{AtomicU32, Ordering};
use std::test::Fail;
use std::thread::Threads;

/// The bytes of a link whose client is of another version.
const OTHER_VERSION: &[u8] = b"\x0b\x00\x01\x04\x00\x00\x00\x00\x00\x00\x00\x00\x00";

/// The bytes of a link whose client greets, plays frame 0 and says farewell.
const ONE_FRAME: &[u8] =
    b"\x0b\x00\x01\x02\x00\xdf\xb7\x01\x86\x4c\xbd\x63\xaf\x06\x00\x02\x00\x00\x00\x00\x00\x01\x00\x04";

/// What is logged of a match over these two links, of which two threads log the greetings.
const LOG: [MatchEvent; 9] = [
    MatchEvent::Listens { at: None },
    MatchEvent::LinkCame {
        client: 0,
        from: None,
    },
    MatchEvent::LinkCame {
        client: 1,
        from: None,
    },
    MatchEvent::GreetsNot {
        client: 0,
        why: NoGreeting::OtherVersion,
    },
    MatchEvent::Greets { client: 1 },
    MatchEvent::Departs {
        client: 0,
        frame: 0,
    },
    MatchEvent::Ticked { frames: 1 },
    MatchEvent::Departs {
        client: 1,
        frame: 1,
    },
    MatchEvent::Over { frames: 1 },
];

/// Serves this match, and answers what was logged of it.
fn log_a_match<R: Threads + Wait + Sync>(rt: &R, alloc: Global) -> Result<Vec<MatchEvent>, Fail> {
    let watch = MemWatch::new(alloc, 16)?;
    let mut net = two_links(alloc, OTHER_VERSION, ONE_FRAME, Vec::new(alloc))?;
    let _served = serve_logged(rt, alloc, &mut net, &watch)?;
    Ok(watch.logged(alloc)?)
}

#[test]
fn a_match_is_logged_in_order(rt: HostRuntime) -> Result<(), Fail> {
    let logged = log_a_match(&rt, rt.alloc())?;
    let mut other = LOG;
    other.swap(3, 4);
    assert!(rt;
        logged.as_slice() == LOG.as_slice() || logged.as_slice() == other.as_slice(),
        "{logged:?}"
    );
    Ok(())
}

/// Ends the hold once it was told three times that the match waits for client 1 at frame 0.
#[derive(Drop)]
struct WaitWatch<'a> {
    hold: &'a Hold,
    count: AtomicU32,
}

impl<'a> Watch for WaitWatch<'a> {
    fn log(&self, event: MatchEvent) {
        let waits = MatchEvent::WaitsFor {
            frame: 0,
            client: 1,
        };
        if event == waits && self.count.fetch_add(1, Ordering::SeqCst) == 2 {
            self.hold.let_go.store(true, Ordering::SeqCst);
        }
    }
}

/// Serves a match over these links, of which the second one is held until the watch was told.
fn serve_waiting<R: Threads + Wait + Sync>(
    rt: &R,
    alloc: Global,
    net: MemNet,
    hold: &Hold,
) -> Result<Outcome, Fail>
    requires no_links { net.given ≡ [] }
{
    let count = AtomicU32::new(0);
    let watch = WaitWatch { hold, count };
    let other = None;
    let mut net = HeldNet { net, hold, other };
    serve_logged(rt, alloc, &mut net, &watch)
}

/// Serves a match that waits for client 1. Whether the turns have ended as well.
fn wait_for_a_client<R: Threads + Wait + Sync>(
    rt: &R,
    alloc: Global,
) -> Result<(Outcome, bool), Fail> {
    let net = two_links(alloc, ONE_FRAME, HELLO_AND_BYE, Vec::new(alloc))?;
    let hold = Hold::new(&[]);
    let served = serve_waiting(rt, alloc, net, &hold)?;
    Ok((served, hold.has_ended()))
}

/// While a match waits that is told again and again.
#[test]
fn waiting_is_logged_again_and_again(rt: HostRuntime) -> Result<(), Fail> {
    let (served, ended) = wait_for_a_client(&rt, rt.alloc())?;
    let ends = [LinkEnd::Ended, LinkEnd::Ended];
    assert_eq!(rt; served.ends.as_slice(), ends.as_slice());
    assert!(rt; !ended);
    Ok(())
}
