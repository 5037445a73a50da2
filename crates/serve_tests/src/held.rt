//! A link that gives nothing more until its client was let go, and a console that gives nothing
//! before.
ghost use Rattle.std.specs.Prelude.{◌≡◌, []};
ghost use Rattle.game_io.specs.PlannedBytes.{sink_state, source_state};
ghost use Rattle.game_io.specs.PlannedLinks.{net_state};

use crate::serving::{Outcome, serve, serve_by_console, two_links};
use game_io::{
    Failed, FailingCall, MAX_HOLD_TURNS, MemNet, MemSink, MemSource, Net, Remains, Sink, Source,
};
use match_serve::LinkEnd;
use std::alloc::{AllocError, Global};
use std::sync::Wait;
use std::sync::atomic::{AtomicBool, Ordering};
use std::test::Fail;
use std::thread;
use std::thread::Threads;

/// The departures of clients 0 and 1 at frame 0, as packets in this order.
const FIRST_LEAVES_FIRST: &[u8] =
    b"\x06\x00\x14\x00\x00\x00\x00\x00\x06\x00\x14\x01\x00\x00\x00\x00";

/// The same packets in the other order.
const SECOND_LEAVES_FIRST: &[u8] =
    b"\x06\x00\x14\x01\x00\x00\x00\x00\x06\x00\x14\x00\x00\x00\x00\x00";

/// The departure of client 1 at frame 0, as a packet.
const SECOND_LEAVES: &[u8] = b"\x06\x00\x14\x01\x00\x00\x00\x00";

/// How the bytes of a sink end once client 1 is seen to have left.
const SECOND_HAS_LEFT: &[&[u8]] = &[SECOND_LEAVES, SECOND_LEAVES_FIRST];

/// How the bytes of a sink end once both clients are seen to have left.
const BOTH_HAVE_LEFT: &[&[u8]] = &[FIRST_LEAVES_FIRST, SECOND_LEAVES_FIRST];

/// What the halves of a held link share: with which bytes its sink is to end, whether it has ended
/// so, and whether the turns have ended in which its source waits for that.
#[derive(Drop)]
pub(crate) struct Hold {
    until: &'static [&'static [u8]],
    pub let_go: AtomicBool,
    ended: AtomicBool,
}

impl Hold {
    pub fn new(until: &'static [&'static [u8]]) -> Hold {
        Hold {
            until,
            let_go: AtomicBool::new(false),
            ended: AtomicBool::new(false),
        }
    }

    /// Ends the hold if the bytes of the sink end as they are to.
    fn look_at(&self, bytes: &[u8]) {
        if self.until.iter().any(|end| bytes.ends_with(end)) {
            self.let_go.store(true, Ordering::SeqCst);
        }
    }

    /// Whether the turns have ended.
    pub fn has_ended(&self) -> bool {
        self.ended.load(Ordering::SeqCst)
    }

    /// Waits for the end of the hold, at most [`MAX_HOLD_TURNS`] turns.
    fn wait(&self) {
        for _turn in 0..MAX_HOLD_TURNS {
            if self.let_go.load(Ordering::SeqCst) {
                return;
            }
            thread::yield_now();
        }
        self.ended.store(true, Ordering::SeqCst);
    }
}

/// The source of a link. If the link is held, it does not end before the hold does.
#[derive(Drop)]
pub(crate) struct HeldSource<'a> {
    source: MemSource,
    hold: Option<&'a Hold>,
}

impl<'a> Source for HeldSource<'a> {
    ghost state = { λ held. source_state held.source };

    fn faults(&self) -> u64 {
        self.source.faults()
    }

    fn take(&mut self, into: &mut [u8]) -> Result<usize, Failed> {
        if let Some(hold) = self.hold {
            if self.source.left().is_empty() {
                hold.wait();
            }
        }
        self.source.take(into)
    }
}

/// The sink of a link. If the link is held, its bytes end the hold, and another hold, if there is
/// one.
#[derive(Drop)]
pub(crate) struct HeldSink<'a> {
    sink: MemSink,
    hold: Option<&'a Hold>,
    other: Option<&'a Hold>,
}

impl<'a> Sink for HeldSink<'a> {
    ghost state = { λ held. sink_state held.sink };

    fn faults(&self) -> u64 {
        self.sink.faults()
    }

    fn put(&mut self, piece: &[u8]) -> Result<(), Failed> {
        let put = self.sink.put(piece);
        if let Some(hold) = self.hold {
            hold.look_at(self.sink.bytes());
        }
        if let Some(other) = self.other {
            other.look_at(self.sink.bytes());
        }
        put
    }
}

/// Links in memory, of which link 1 is held. What is sent over it ends the other hold too.
#[derive(Drop)]
pub(crate) struct HeldNet<'a> {
    pub net: MemNet,
    pub hold: &'a Hold,
    pub other: Option<&'a Hold>,
}

impl<'a> HeldNet<'a> {
    /// The hold of the next link, if it is held.
    fn next_hold(&self) -> Option<&'a Hold> {
        if self.net.links() == 1 {
            Some(self.hold)
        } else {
            None
        }
    }

    /// The other hold of the next link, if it is held.
    fn next_other(&self) -> Option<&'a Hold> {
        if self.net.links() == 1 {
            self.other
        } else {
            None
        }
    }
}

impl<'a> Net for HeldNet<'a> {
    type In = HeldSource<'a>;

    type Out = HeldSink<'a>;

    ghost state = { λ held. net_state held.net };

    fn faults(&self) -> u64 {
        self.net.faults()
    }

    fn links(&self) -> u32 {
        self.net.links()
    }

    fn listen(&mut self, at: &str) -> Result<(), Failed> {
        self.net.listen(at)
    }

    fn accept(&mut self) -> Result<(HeldSource<'a>, HeldSink<'a>), Failed> {
        let hold = self.next_hold();
        let other = self.next_other();
        let (source, sink) = self.net.accept()?;
        Ok((HeldSource { source, hold }, HeldSink { sink, hold, other }))
    }

    fn dial(&mut self, at: &str) -> Result<(HeldSource<'a>, HeldSink<'a>), Failed> {
        let hold = self.next_hold();
        let other = self.next_other();
        let (source, sink) = self.net.dial(at)?;
        Ok((HeldSource { source, hold }, HeldSink { sink, hold, other }))
    }

    fn take_back(&mut self, i: u32, input: HeldSource<'a>, output: HeldSink<'a>) {
        self.net.take_back(i, input.source, output.sink);
    }

    fn link_faults(&self, i: u32) -> u64 {
        self.net.link_faults(i)
    }
}

/// The bytes of a link whose client greets.
pub(crate) const HELLO: &[u8] = b"\x0b\x00\x01\x02\x00\xdf\xb7\x01\x86\x4c\xbd\x63\xaf";

/// The bytes of a link whose client greets and says farewell.
pub(crate) const HELLO_AND_BYE: &[u8] =
    b"\x0b\x00\x01\x02\x00\xdf\xb7\x01\x86\x4c\xbd\x63\xaf\x01\x00\x04";

/// Lines that kick nobody, more bytes than are taken at once, and then one that kicks client 1.
const LINES: &[u8] =
    b"kick 11\nkick 01\nkick  1\nKick 1\nkick 1 \nkick\nkick 2\nkick 99\nkick 1x\nkick 1\n";

/// The last put to the first link, which has the welcome and two departures, fails or none does;
/// and how often that link has then failed.
const FAILING: [(Option<Remains>, u64); 2] = [(None, 0), (Some(Remains::Prefix(3)), 1)];

/// What became of a held link and of the other one.
#[derive(Drop)]
struct AfterHold {
    /// How each link ended, by client.
    ends: Vec<LinkEnd>,
    /// How often each link has failed.
    faults: (u64, u64),
    /// How many bytes each link has left.
    left: (Option<usize>, Option<usize>),
}

/// How many bytes link `i` has left.
fn left_of(net: &MemNet, i: u32) -> Option<usize> {
    match net.left(i) {
        Some(bytes) => Some(bytes.len()),
        None => None,
    }
}

/// The call that fails so, if one does.
fn failing(alloc: Global, remains: Option<Remains>) -> Result<Vec<FailingCall>, AllocError> {
    let mut puts = Vec::new(alloc);
    if let Some(remains) = remains {
        puts.push(FailingCall { call: 2, remains })?;
    }
    Ok(puts)
}

/// Serves a match over a net that is held so.
fn serve_held<R: Threads + Wait + Sync>(
    rt: &R,
    alloc: Global,
    net: MemNet,
    hold: &Hold,
) -> Result<AfterHold, Fail>
    requires no_links { net.given ≡ [] }
{
    let other = None;
    let mut net = HeldNet { net, hold, other };
    let served = serve(rt, alloc, &mut net, LINES)?;
    Ok(AfterHold {
        ends: served.ends,
        faults: (net.link_faults(0), net.link_faults(1)),
        left: (left_of(&net.net, 0), left_of(&net.net, 1)),
    })
}

/// Serves a match whose second link is held, while a put to the first one fails so. Whether the
/// turns have ended as well.
fn hold_a_link<R: Threads + Wait + Sync>(
    rt: &R,
    alloc: Global,
    remains: Option<Remains>,
) -> Result<(AfterHold, bool), Fail> {
    let puts = failing(alloc, remains)?;
    let net = two_links(alloc, HELLO_AND_BYE, HELLO, puts)?;
    let hold = Hold::new(SECOND_HAS_LEFT);
    let after = serve_held(rt, alloc, net, &hold)?;
    Ok((after, hold.has_ended()))
}

/// With a server that does not kick, the turns end.
#[test]
fn a_held_link(rt: HostRuntime) -> Result<(), Fail> {
    for (remains, faults) in FAILING {
        let (after, ended) = hold_a_link(&rt, rt.alloc(), remains)?;
        let ends = [LinkEnd::Ended, LinkEnd::Kicked(0)];
        assert_eq!(rt; after.ends.as_slice(), ends.as_slice());
        assert_eq!(rt;
            (after.faults, after.left),
            ((faults, 0), (Some(0), Some(0)))
        );
        assert!(rt; !ended);
    }
    Ok(())
}

/// A console that gives nothing before the hold has ended.
#[derive(Drop)]
pub(crate) struct HeldConsole<'a> {
    pub source: MemSource,
    pub hold: &'a Hold,
}

impl<'a> Source for HeldConsole<'a> {
    ghost state = { λ held. source_state held.source };

    fn faults(&self) -> u64 {
        self.source.faults()
    }

    fn take(&mut self, into: &mut [u8]) -> Result<usize, Failed> {
        self.hold.wait();
        self.source.take(into)
    }
}

/// A line as long as what the server takes at once, and a second line.
const LAST_LINES: &[u8] =
    b"They have left. This line is 64 bytes long, its end counts too.\nkick 0\n";

/// Serves a match over a held net, while a console that is held so gives these lines. What the
/// console has left as well.
pub(crate) fn serve_held_console<'a, R: Threads + Wait + Sync>(
    rt: &R,
    alloc: Global,
    mut net: HeldNet<'a>,
    lines: &[u8],
    hold: &'a Hold,
) -> Result<(Outcome, Vec<u8>), Fail>
    requires no_links { net.net.given ≡ [] }
{
    let source = MemSource::new(Vec::from_slice(alloc, lines)?, Vec::new(alloc));
    let mut console = HeldConsole { source, hold };
    let served = serve_by_console(rt, alloc, &mut net, &mut console)?;
    Ok((served, Vec::from_slice(alloc, console.source.left())?))
}

/// Serves a match whose second link and whose console are held. What the console has left, and
/// whether the turns have ended, as well.
fn hold_a_console<R: Threads + Wait + Sync>(
    rt: &R,
    alloc: Global,
) -> Result<(Outcome, Vec<u8>, bool), Fail> {
    let net = two_links(alloc, HELLO_AND_BYE, HELLO_AND_BYE, Vec::new(alloc))?;
    let hold = Hold::new(BOTH_HAVE_LEFT);
    let net = HeldNet {
        net,
        hold: &hold,
        other: None,
    };
    let (served, left) = serve_held_console(rt, alloc, net, LAST_LINES, &hold)?;
    Ok((served, left, hold.has_ended()))
}

/// The first line that comes once both have left ends the console.
#[test]
fn a_held_console(rt: HostRuntime) -> Result<(), Fail> {
    let (served, left, ended) = hold_a_console(&rt, rt.alloc())?;
    let ends = [LinkEnd::Ended, LinkEnd::Ended];
    assert_eq!(rt; served.ends.as_slice(), ends.as_slice());
    assert_eq!(rt; left.as_slice(), b"kick 0\n".as_slice());
    assert!(rt; !ended);
    Ok(())
}
