//! Drills that are read, and faulty ones with the letter of their fault and its line.

use crate::faults::letter;
use drill_words::{
    DrillFault, Event, EventList, EventView, MAX_DRILL_BYTES, MAX_EVENTS, read_drill,
};
use game_orders::{Order, Orders};
use std::alloc::{AllocError, Global};
use std::process::Abort;
use std::test::Fail;

/// The letter of a drill's fault and its line. A drill that is read has `-`.
fn fault(rt: &impl Abort, alloc: Global, text: &[u8]) -> (u8, u32) {
    assert!(rt; text.len() <= MAX_DRILL_BYTES as usize);
    match read_drill(alloc, text) {
        Ok(_) => (b'-', 0),
        Err(fault) => letter(&fault),
    }
}

/// Texts without a kept line, faulty match lines, and texts of which several lines are faulty.
const TEXTS: [(&[u8], u8, u32); 35] = [
    // No line is kept.
    (b"", b'W', 0),
    (b"\n\n", b'W', 0),
    (b" \t\r\n", b'W', 0),
    (b"# match 1 2 3\n#\n", b'W', 0),
    (b"#match", b'W', 0),
    // The match line's word.
    (b"seal 0", b'W', 1),
    (b"Match 1 2 3", b'W', 1),
    (b"matc 1 2 3", b'W', 1),
    (b"match1 2 3", b'W', 1),
    (b"matches 1 2 3", b'W', 1),
    (b"\n#\n script 1 2", b'W', 3),
    (b"\xff\n", b'W', 1),
    // Its numbers.
    (b"match", b'W', 1),
    (b"match 1", b'W', 1),
    (b"match 1 2", b'W', 1),
    (b"match 1 2 3 4", b'W', 1),
    (b"match 1 2 3 #", b'W', 1),
    (b"match one 2 3", b'N', 1),
    (b"match 0 2 3", b'N', 1),
    (b"match 17 2 3", b'N', 1),
    (b"match 17 0 x y", b'N', 1),
    (b"match +1 2 3", b'N', 1),
    (b"match 00000000001 2 3", b'N', 1),
    (b"match 1 0 3", b'N', 1),
    (b"match 1 65 3", b'N', 1),
    (b"match 1 -1 3", b'N', 1),
    (b"match 1 2 4294967296", b'N', 1),
    (b"match 1 2 99999999999", b'N', 1),
    (b"match 1 2 0x10", b'N', 1),
    (b"match 0 2", b'N', 1),
    // The earliest line.
    (b"match 1 2 3\n\n# seal\nseal 0\r\nup x\nseal 1\n", b'N', 5),
    (b"match 2 2 3\nup 0\n\ttick 0 0\nnothing", b'W', 3),
    (b"#\xff\nmatch 1 2 3\nup \xb5", b'N', 3),
    (b"match 17\nnothing", b'N', 1),
    // The last of sixteen clients, and one more.
    (b"match 16 2 3\nseal 15\ndown 0 15 7\nbye 16", b'C', 4),
];

#[test]
fn texts_are_refused(rt: HostRuntime) {
    for (text, letter, line) in TEXTS {
        assert_eq!(rt; fault(&rt, rt.alloc(), text), (letter, line), "{text:?}");
    }
}

/// The letter of the fault of a line after the match line of two clients.
fn event_fault(rt: &impl Abort, alloc: Global, event: &[u8]) -> Result<u8, AllocError> {
    let mut text = Vec::from_slice(alloc, b"match 2 2 3\n")?;
    text.extend_from_slice(event)?;
    let (letter, line) = fault(rt, alloc, text.as_slice());
    assert!(rt; line == 2 || letter == b'-');
    Ok(letter)
}

/// Event lines of a match of two clients.
static EVENTS: [(&[u8], u8); 109] = [
    (b"sea 0", b'W'),
    (b"SEAL 0", b'W'),
    (b"seals 0", b'W'),
    (b"0 seal", b'W'),
    (b"match 1 2 3", b'W'),
    (b";", b'W'),
    (b"donate 1 5", b'W'),
    (b"server", b'W'),
    // The client.
    (b"seal", b'W'),
    (b"seal 0000000001", b'-'),
    (b"seal 2", b'C'),
    (b"seal 9999999999", b'C'),
    (b"seal 00000000000", b'N'),
    (b"seal p", b'N'),
    (b"seal donate 1 5", b'N'),
    (b"seal 7 move", b'C'),
    // The word of an order.
    (b"seal 0 move 1 2 3", b'-'),
    (b"seal 0 move+ 4294967295 255 255", b'-'),
    (b"seal 0 move 4294967296 2 3", b'N'),
    (b"seal 0 move 1 256 3", b'N'),
    (b"seal 0 move 1 2 256", b'N'),
    (b"seal 0 move 1 2", b'W'),
    (b"seal 0 move 1 2 3 4", b'W'),
    (b"seal 0 move + 1 2 3", b'N'),
    (b"seal 0 move++ 1 2 3", b'W'),
    (b"seal 0 attack 1 4294967295", b'-'),
    (b"seal 0 attack+ 1 2", b'-'),
    (b"seal 0 attack 1 4294967296", b'N'),
    (b"seal 0 attack 1", b'W'),
    (b"seal 0 harvest 1 0 255", b'-'),
    (b"seal 0 harvest+ 1 2 3 ; stop 1", b'-'),
    (b"seal 0 harvest 1 2 256", b'N'),
    (b"seal 0 stop 4294967295", b'-'),
    (b"seal 0 stop+ 1", b'W'),
    (b"seal 0 stop", b'W'),
    (b"seal 0 produce 1 65535", b'-'),
    (b"seal 0 produce 1 65536", b'N'),
    (b"seal 0 produce 1", b'W'),
    (b"seal 0 cancel 1", b'-'),
    (b"seal 0 cancel 1 2", b'W'),
    (b"seal 0 pace 255", b'-'),
    (b"seal 0 pace 0 ; pace 9", b'-'),
    (b"seal 0 pace 256", b'N'),
    (b"seal 0 pace+ 1", b'W'),
    (b"seal 0 halt 1", b'W'),
    (b"seal 0 Donate 1 5", b'W'),
    // Its numbers.
    (b"seal 0 donate", b'W'),
    (b"seal 0 donate 1", b'W'),
    (b"seal 0 donate ; 5", b'N'),
    (b"seal 0 donate 1 ;", b'N'),
    (b"seal 0 donate 255 4294967295", b'-'),
    (b"seal 0 donate 256 5", b'N'),
    (b"seal 0 donate 1 4294967296", b'N'),
    (b"seal 0 donate x y", b'N'),
    // The word between orders.
    (b"seal 0 ; donate 1 5", b'W'),
    (b"seal 0 donate 1 5 ;", b'W'),
    (b"seal 0 donate 1 5 ; ; donate 1 5", b'W'),
    (b"seal 0 donate 1 5 donate 1 5", b'W'),
    (b"seal 0 donate 1 5 ;; donate 1 5", b'W'),
    (b"seal 0 donate 1 5;", b'N'),
    (b"seal 0 donate 1 5 # why", b'W'),
    (b"up", b'W'),
    (b"up 4294967296", b'N'),
    (b"up zero", b'N'),
    (b"up 0 0", b'W'),
    // The first faulty word from the left.
    (b"down", b'W'),
    (b"down 0 1", b'W'),
    (b"down 2 x 0", b'C'),
    (b"down 0 x y", b'N'),
    (b"down 0 2 y", b'C'),
    (b"down 0 4294967296 0", b'C'),
    (b"down 0 0 y z", b'N'),
    (b"down 0 0 4294967296", b'N'),
    (b"down 0 0 0 0", b'W'),
    // The word `server` stands in the place of a client.
    (b"tick", b'W'),
    (b"tick 2", b'C'),
    (b"tick 4294967296", b'C'),
    (b"tick serve", b'N'),
    (b"tick servers", b'N'),
    (b"tick SERVER", b'N'),
    (b"tick server 0", b'W'),
    (b"tick 0 server", b'W'),
    (b"tickserver", b'W'),
    (b"drop", b'W'),
    (b"drop 2", b'C'),
    (b"drop server", b'N'),
    (b"drop 0 1", b'W'),
    (b"report", b'W'),
    (b"report 2", b'C'),
    (b"report x", b'N'),
    (b"report 0 0", b'W'),
    (b"bye", b'W'),
    (b"bye 2", b'C'),
    (b"bye bye", b'N'),
    (b"bye 0 0", b'W'),
    // A forged report's client and frame.
    (b"forge", b'W'),
    (b"forge 2 x y", b'C'),
    (b"forge 00000000001 0 y", b'N'),
    (b"forge 0", b'W'),
    (b"forge 0 x y", b'N'),
    (b"forge 0 4294967296 0123456789abcdef", b'N'),
    // Its hash.
    (b"forge 0 0", b'W'),
    (b"forge 0 0 0123456789abcdef", b'-'),
    (b"forge 0 0 0123456789abcde", b'W'),
    (b"forge 0 0 0123456789abcdef0", b'W'),
    (b"forge 0 0 0123456789ABCDEF", b'W'),
    (b"forge 0 0 0123456789abcdeg", b'W'),
    (b"forge 0 0 +123456789abcdef", b'W'),
    (b"forge 0 0 0123456789abcdef 0", b'W'),
];

#[test]
fn events_are_refused(rt: HostRuntime) -> Result<(), Fail> {
    for (event, letter) in EVENTS.iter() {
        assert_eq!(rt; event_fault(&rt, rt.alloc(), event)?, *letter, "{event:?}");
    }
    Ok(())
}

/// A line of so many orders, and of what follows them.
fn seal_of(alloc: Global, orders: u32, rest: &[u8]) -> Result<Vec<u8>, AllocError> {
    let mut line = Vec::from_slice(alloc, b"seal 0 donate 1 1")?;
    for _ in 1..orders {
        line.extend_from_slice(b" ; donate 1 1")?;
    }
    line.extend_from_slice(rest)?;
    Ok(line)
}

/// Lines of many orders. The word that begins the seventeenth one is read, and its numbers are not.
const MANY: [(u32, &[u8], u8); 8] = [
    (16, b"", b'-'),
    (17, b"", b'O'),
    (18, b" ; x", b'O'),
    (16, b" ; donate x", b'O'),
    (16, b" ; x", b'W'),
    (16, b" ;", b'W'),
    (16, b" 5", b'W'),
    (15, b" ; donate x 1 ; donate 1 1", b'N'),
];

#[test]
fn orders_are_counted(rt: HostRuntime) -> Result<(), Fail> {
    for (orders, rest, letter) in MANY {
        let event = seal_of(rt.alloc(), orders, rest)?;
        let got = event_fault(&rt, rt.alloc(), event.as_slice())?;
        assert_eq!(rt; got, letter, "{orders} {rest:?}");
    }
    Ok(())
}

/// A match line, and so many events.
fn drill_of(alloc: Global, events: u32) -> Result<Vec<u8>, AllocError> {
    let mut text = Vec::from_slice(alloc, b"match 1 2 3\n")?;
    for _ in 0..events {
        text.extend_from_slice(b"up 7\n")?;
    }
    Ok(text)
}

#[test]
fn events_are_counted(rt: HostRuntime) -> Result<(), Fail> {
    let mut text = drill_of(rt.alloc(), MAX_EVENTS)?;
    text.extend_from_slice(b"\n# the last line\n")?;
    assert_eq!(rt; fault(&rt, rt.alloc(), text.as_slice()), (b'-', 0));
    text.extend_from_slice(b"up x")?;
    assert_eq!(rt; fault(&rt, rt.alloc(), text.as_slice()), (b'E', 200_004));
    Ok(())
}

/// A drill that is read in one line: its clients, lag and seed, and each event after a comma.
fn shown(rt: &impl Abort, alloc: Global, text: &[u8]) -> Result<String, AllocError> {
    assert!(rt; text.len() <= MAX_DRILL_BYTES as usize);
    let Ok(drill) = read_drill(alloc, text) else {
        return Ok(String::new(alloc));
    };
    let mut line = format!(in alloc; "{} {} {}", drill.clients, drill.lag, drill.seed)?;
    show_events(&mut line, &drill.events)?;
    Ok(line)
}

/// Adds events to a line.
fn show_events(line: &mut String, events: &EventList) -> Result<(), AllocError> {
    for index in 0..events.len() {
        show_event(line, events.get(index))?;
    }
    Ok(())
}

/// Adds an event to a line.
fn show_event(line: &mut String, event: EventView<'_>) -> Result<(), AllocError> {
    match event {
        EventView::Seal { peer, orders } => show_seal(line, peer, &orders.copy()),
        EventView::Up { packet } => write!(line, ", up {packet}"),
        EventView::Down {
            peer,
            client,
            frame,
        } => write!(line, ", down {peer} {client} {frame}"),
        EventView::Tick { peer } => write!(line, ", tick {peer}"),
        EventView::TickServer => write!(line, ", tick server"),
        EventView::DropClient { client } => write!(line, ", drop {client}"),
        EventView::Report { peer } => write!(line, ", report {peer}"),
        EventView::Forge {
            client,
            frame,
            hash,
        } => write!(line, ", forge {client} {frame} {hash}"),
        EventView::Bye { peer } => write!(line, ", bye {peer}"),
    }
}

/// Adds a seal to a line: the number of its orders, and the receiver and the amount of each.
fn show_seal(line: &mut String, peer: u8, orders: &Orders) -> Result<(), AllocError> {
    let count = orders.len();
    write!(line, ", seal {peer} of {count}")?;
    for index in 0..count {
        if let Some(Order::Donate { to, amount }) = orders.get(index) {
            write!(line, " {to}:{amount}")?;
        }
    }
    Ok(())
}

/// Drills that are read.
const DRILLS: [(&[u8], &[u8]); 14] = [
    // Without events, with and without a last line feed.
    (b"match 1 2 5489\n", b"1 2 5489"),
    (b"match 16 2 5489", b"16 2 5489"),
    (b"match 1 64 4294967295", b"1 64 4294967295"),
    // Each event.
    (b"match 2 1 0\nseal 1\nup 0", b"2 1 0, seal 1 of 0, up 0"),
    (b"match 1 1 0\nup 4294967295\n", b"1 1 0, up 4294967295"),
    (
        b"match 3 1 0\ndown 2 1 4294967295\ntick 2\ntick server",
        b"3 1 0, down 2 1 4294967295, tick 2, tick server",
    ),
    (
        b"match 8 1 0\ndrop 4\nreport 7\nbye 5",
        b"8 1 0, drop 4, report 7, bye 5",
    ),
    (
        b"match 8 1 0\nforge 6 9 0123456789abcdef",
        b"8 1 0, forge 6 9 81985529216486895",
    ),
    (
        b"match 16 1 0\nforge 15 4294967295 ffffffffffffffff",
        b"16 1 0, forge 15 4294967295 18446744073709551615",
    ),
    // Orders. A receiver need not be of the match.
    (
        b"match 2 2 3\nseal 0 donate 255 4294967295 ; donate 1 0\nseal 0",
        b"2 2 3, seal 0 of 2 255:4294967295 1:0, seal 0 of 0",
    ),
    // Blanks, lines without words and comments.
    (b" \tmatch\t1  2 \r 3\r\n\r\n\n  \t\n", b"1 2 3"),
    (
        b"#\n#match 1 2\nmatch 1 2 3\n# seal 9\n   #up\nseal\t0 \r\n#",
        b"1 2 3, seal 0 of 0",
    ),
    // Numbers with leading zeros.
    (b"match 0000000001 002 0000000003", b"1 2 3"),
    (b"match 1 2 3\nup 0000000007", b"1 2 3, up 7"),
];

#[test]
fn drills_are_read(rt: HostRuntime) -> Result<(), Fail> {
    for (text, want) in DRILLS {
        let got = shown(&rt, rt.alloc(), text)?;
        assert_eq!(rt; got.as_bytes(), want, "{text:?}");
    }
    Ok(())
}

#[test]
fn sixteen_orders_are_read(rt: HostRuntime) -> Result<(), Fail> {
    let mut text = Vec::from_slice(rt.alloc(), b"match 2 2 3\n")?;
    text.extend_from_slice(seal_of(rt.alloc(), 15, b" ; donate 0 9")?.as_slice())?;
    let got = shown(&rt, rt.alloc(), text.as_slice())?;
    let want =
        b"2 2 3, seal 0 of 16 1:1 1:1 1:1 1:1 1:1 1:1 1:1 1:1 1:1 1:1 1:1 1:1 1:1 1:1 1:1 0:9";
    assert_eq!(rt; got.as_bytes(), want.as_slice());
    Ok(())
}

/// A seal of so many orders, with amounts from `first` on.
fn seal(peer: u8, first: u32, count: u32) -> Event {
    let mut orders = Orders::empty();
    for index in 0..count {
        let _ = orders.try_push(Order::Donate {
            to: peer,
            amount: first.wrapping_add(index),
        });
    }
    Event::Seal { peer, orders }
}

#[test]
fn each_seal_keeps_its_own_orders(rt: HostRuntime) -> Result<(), Fail> {
    let mut events = EventList::new(rt.alloc());
    events.push(seal(0, 10, 2))?;
    events.push(Event::TickServer)?;
    events.push(seal(1, 20, 0))?;
    events.push(seal(2, 30, 3))?;
    events.push(Event::Up { packet: 9 })?;
    let mut line = String::new(rt.alloc());
    show_events(&mut line, &events)?;
    let want =
        b", seal 0 of 2 0:10 0:11, tick server, seal 1 of 0, seal 2 of 3 2:30 2:31 2:32, up 9";
    assert_eq!(rt; line.as_bytes(), want.as_slice());
    Ok(())
}
