//! Streams of packets in pieces of several lengths, and the bytes of single packets.

mod down_rows;
mod up_rows;

use game_orders::{Entry, Order, Orders};
use order_packets::{
    Down, DownFeeder, FeedFault, Feeder, Packet, Up, UpFeeder, write_down, write_up,
};
use std::alloc::{AllocError, Global};
use std::fmt::Write;
use std::process::Abort;
use std::test::Fail;

/// The lengths of the pieces in which each stream is fed.
const PIECES: [usize; 4] = [1, 3, 7, 4_096];

/// No stream and no piece here is longer.
const LONGEST: usize = 10_000;

/// A packet that is printed in words and written again.
trait Worded: Packet {
    fn words(&self, out: &mut String) -> Result<(), AllocError>;

    fn rewrite(&self, out: &mut Vec<u8>) -> Result<(), AllocError>;
}

impl Worded for Up {
    fn words(&self, out: &mut String) -> Result<(), AllocError> {
        match self {
            Up::Hello { version, rules } => write!(out, "hello {version} {rules:016x}"),
            Up::Orders { frame, orders } => {
                write!(out, "orders {frame}")?;
                orders_words(orders, out)
            }
            Up::Sync { frame, hash } => write!(out, "sync {frame} {hash:016x}"),
            Up::Bye => write!(out, "bye"),
        }
    }

    fn rewrite(&self, out: &mut Vec<u8>) -> Result<(), AllocError> {
        write_up(out, self)
    }
}

impl Worded for Down {
    fn words(&self, out: &mut String) -> Result<(), AllocError> {
        match self {
            Down::Welcome {
                client,
                clients,
                lag,
                seed,
            } => write!(out, "welcome {client} {clients} {lag} {seed}"),
            Down::Refused { code } => write!(out, "refused {code}"),
            Down::Entry {
                client,
                frame,
                entry: Entry::Play(orders),
            } => {
                write!(out, "play {client} {frame}")?;
                orders_words(orders, out)
            }
            Down::Entry {
                client,
                frame,
                entry: Entry::Leave,
            } => write!(out, "leave {client} {frame}"),
        }
    }

    fn rewrite(&self, out: &mut Vec<u8>) -> Result<(), AllocError> {
        write_down(out, self)
    }
}

/// The words of each order, separated by semicolons.
fn orders_words(orders: &Orders, out: &mut String) -> Result<(), AllocError> {
    let mut separator = "";
    for order in orders.as_slice() {
        write!(out, "{separator} ")?;
        order_words(order, out)?;
        separator = " ;";
    }
    Ok(())
}

fn plus(queued: bool) -> &'static str {
    if queued { "+" } else { "" }
}

fn order_words(order: &Order, out: &mut String) -> Result<(), AllocError> {
    match *order {
        Order::Move {
            actor,
            cell,
            queued,
        } => write!(out, "move{} {actor} {} {}", plus(queued), cell.x, cell.y),
        Order::Attack {
            actor,
            target,
            queued,
        } => write!(out, "attack{} {actor} {target}", plus(queued)),
        Order::Harvest {
            actor,
            cell,
            queued,
        } => write!(out, "harvest{} {actor} {} {}", plus(queued), cell.x, cell.y),
        Order::Stop { actor } => write!(out, "stop {actor}"),
        Order::Produce { actor, kind } => write!(out, "produce {actor} {kind}"),
        Order::Cancel { actor } => write!(out, "cancel {actor}"),
        Order::Donate { to, amount } => write!(out, "donate {to} {amount}"),
        Order::Pace { ticks } => write!(out, "pace {ticks}"),
    }
}

/// Feeds a piece, and gives the lines of the packets that it completes and their bytes.
fn feed_piece<P: Worded>(
    rt: &impl Abort,
    feeder: &mut Feeder<P>,
    piece: &[u8],
    lines: &mut String,
    bytes: &mut Vec<u8>,
) -> Result<(), Fail> {
    assert!(rt; feeder.at() < LONGEST as u64 && feeder.held() < LONGEST && piece.len() <= LONGEST);
    feeder.feed(piece)?;
    for _ in 0..=piece.len() {
        let at = feeder.at();
        let Ok(Some(packet)) = feeder.next() else {
            return Ok(());
        };
        write!(lines, "{at} ")?;
        packet.words(lines)?;
        lines.push('\n')?;
        packet.rewrite(bytes)?;
    }
    Err("more packets than bytes".into())
}

/// The lines of a stream that is fed in pieces of this length. The packets' spellings are the bytes
/// before the place at which they end.
fn lines_of<P: Worded>(
    rt: &impl Abort,
    alloc: Global,
    stream: &[u8],
    length: usize,
) -> Result<String, Fail> {
    let mut feeder = Feeder::<P>::create(alloc)?;
    let mut lines = String::new(alloc);
    let mut bytes = Vec::new(alloc);
    assert!(rt; length > 0);
    for piece in stream.chunks(length) {
        feed_piece(rt, &mut feeder, piece, &mut lines, &mut bytes)?;
    }
    match feeder.next() {
        Ok(Some(_)) => return Err("a packet was left".into()),
        Ok(None) => writeln!(lines, "open {}", feeder.held())?,
        Err(fault) => writeln!(lines, "fault {fault:?} {}", feeder.at())?,
    }
    assert!(rt; stream.starts_with(&bytes) && bytes.len() as u64 == feeder.at());
    Ok(lines)
}

#[test]
fn streams_to_the_server(rt: HostRuntime) -> Result<(), Fail> {
    for (stream, want) in up_rows::ROWS.iter() {
        for length in PIECES {
            let lines = lines_of::<Up>(&rt, rt.alloc(), stream, length)?;
            assert_eq!(rt; lines.as_str(), *want, "in pieces of {length}");
        }
    }
    Ok(())
}

#[test]
fn streams_to_a_client(rt: HostRuntime) -> Result<(), Fail> {
    for (stream, want) in down_rows::ROWS.iter() {
        for length in PIECES {
            let lines = lines_of::<Down>(&rt, rt.alloc(), stream, length)?;
            assert_eq!(rt; lines.as_str(), *want, "in pieces of {length}");
        }
    }
    Ok(())
}

#[test]
fn bytes_of_packets(rt: HostRuntime) -> Result<(), Fail> {
    let mut orders = Orders::empty();
    assert!(rt; orders.try_push(Order::Donate { to: 1, amount: 50 }));
    let mut out = Vec::new(rt.alloc());
    write_up(&mut out, &Up::Orders { frame: 0, orders })?;
    let donation = [12, 0, 2, 0, 0, 0, 0, 1, 7, 1, 50, 0, 0, 0];
    assert_eq!(rt; out.as_slice(), donation.as_slice());
    let mut out = Vec::new(rt.alloc());
    let leave = Down::Entry {
        client: 1,
        frame: 3,
        entry: Entry::Leave,
    };
    write_down(&mut out, &leave)?;
    assert_eq!(rt; out.as_slice(), [6, 0, 20, 1, 3, 0, 0, 0].as_slice());
    Ok(())
}

#[test]
fn a_fault_stays(rt: HostRuntime) -> Result<(), Fail> {
    let mut up = UpFeeder::create(rt.alloc())?;
    up.feed(&[1])?;
    assert!(rt; matches!(up.next(), Ok(None)));
    assert_eq!(rt; (up.at(), up.held()), (0, 1));
    assert!(rt; up.held() < LONGEST && up.at() == 0);
    up.feed(&[1])?;
    assert!(rt; matches!(up.next(), Err(FeedFault::LengthTooLarge)));
    assert!(rt; up.held() < LONGEST && up.at() == 0);
    up.feed(&[3, 0, 4])?;
    assert!(rt; matches!(up.next(), Err(FeedFault::LengthTooLarge)));
    assert_eq!(rt; (up.at(), up.held()), (0, 2));
    let mut down = DownFeeder::create(rt.alloc())?;
    down.feed(&[1, 0, 4])?;
    assert!(rt; matches!(down.next(), Err(FeedFault::BadTag)));
    Ok(())
}

#[test]
fn equal_exactly_where_the_same(rt: HostRuntime) {
    let mut orders = Orders::empty();
    assert!(rt; orders.try_push(Order::Donate { to: 1, amount: 50 }));
    let packets = [
        Up::Hello {
            version: 1,
            rules: 0,
        },
        Up::Orders { frame: 0, orders },
        Up::Orders {
            frame: 0,
            orders: Orders::empty(),
        },
        Up::Sync { frame: 0, hash: 0 },
        Up::Bye,
    ];
    for (i, packet) in packets.iter().enumerate() {
        for (j, other) in packets.iter().enumerate() {
            assert_eq!(rt; packet.copy() == *other, i == j, "packets {i} and {j}");
        }
    }
}
