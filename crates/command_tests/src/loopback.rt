//! A server and two players in one process, over links of the loopback.
ghost use Rattle.std.specs.Prelude.{◌≡◌, ◌<◌, []};

use game_io::{Disk, MemDisk, MemSink, MemSource, Net, NoGate, Sink, TcpNet};
use match_commands::run_waiting;
use std::alloc::{AllocError, Global};
use std::net::{Net as Sockets, TcpListener, TcpStream};
use std::sync::Wait;
use std::test::Fail;
use std::thread::Threads;
use std::time::Clock;
use std::{process, thread};

/// A command line that is run on a thread of its own, the files that it reads, and its answer.
#[derive(Drop)]
struct Seat {
    alloc: Global,
    words: Vec<String>,
    disk: MemDisk,
    out: MemSink,
    status: u8,
}

/// The script of each player: 20 frames, and in each a donation.
const SCRIPT: &str = "script 1 9\n\
    0 donate 1 1\n0 donate 1 2\n0 donate 1 3\n0 donate 1 4\n0 donate 1 5\n\
    0 donate 1 6\n0 donate 1 7\n0 donate 1 8\n0 donate 1 9\n0 donate 1 10\n\
    0 donate 1 11\n0 donate 1 12\n0 donate 1 13\n0 donate 1 14\n0 donate 1 15\n\
    0 donate 1 16\n0 donate 1 17\n0 donate 1 18\n0 donate 1 19\n0 donate 1 20\n";

/// The words of a line with a blank between each two.
fn words_of(alloc: Global, line: &str) -> Result<Vec<String>, AllocError> {
    let mut words = Vec::new(alloc);
    for word in line.split(' ') {
        words.push(String::from_str(alloc, word)?)?;
    }
    Ok(words)
}

/// A seat that runs this command line, with the script in the file `s`.
fn new_seat(alloc: Global, line: &str) -> Result<Seat, AllocError> {
    let words = words_of(alloc, line)?;
    let mut disk = MemDisk::new(alloc, Vec::new(alloc));
    disk.add(alloc, "s", SCRIPT.as_bytes())?;
    Ok(Seat {
        alloc,
        words,
        disk,
        out: MemSink::new(alloc, Vec::new(alloc)),
        status: 255,
    })
}

/// The seats of a server at this port and of two players.
fn seats_at(alloc: Global, port: u32) -> Result<Vec<Seat>, AllocError> {
    let host = format!(in alloc; "lockstep serve --at 127.0.0.1:{port} --clients 2 --lag 2")?;
    let guest = format!(in alloc; "lockstep play --at 127.0.0.1:{port} --script s")?;
    let mut seats = Vec::new(alloc);
    seats.push(new_seat(alloc, &host)?)?;
    seats.push(new_seat(alloc, &guest)?)?;
    seats.push(new_seat(alloc, &guest)?)?;
    Ok(seats)
}

/// Runs a command line over these devices and an empty console.
fn run_words<D: Disk, K: Sink, N: Net, R: Threads + Wait + Sync>(
    rt: &R,
    alloc: Global,
    words: &[String],
    disk: &mut D,
    out: &mut K,
    net: &mut N,
) -> u8
    requires { (N.state net.old).given ≡ [] }
{
    let mut console = MemSource::new(Vec::new(alloc), Vec::new(alloc));
    run_waiting(rt, alloc, words, disk, out, net, &mut console, &NoGate)
}

/// Runs the command of a seat over links of TCP.
fn run_seat<R>(rt: &R, seat: &mut Seat)
where
    R: Threads + Wait + Sync + Clock + Sockets<Listener = TcpListener, Stream = TcpStream>,
{
    let mut net = TcpNet::new(rt);
    let Seat {
        alloc,
        words,
        disk,
        out,
        status,
    } = seat;
    *status = run_words(rt, *alloc, words, disk, out, &mut net);
}

/// Runs the commands of these seats, each on a thread of its own.
fn run_seats<R>(rt: &R, seats: &mut [Seat])
where
    R: Threads + Wait + Sync + Clock + Sockets<Listener = TcpListener, Stream = TcpStream>,
{
    let run = |_: usize, seat: &mut Seat| run_seat(rt, seat);
    thread::for_each_mut(rt, seats, 3, &run);
}

/// The hash of the printed world after 20 frames.
fn hash(text: &[u8]) -> Option<&str> {
    let text = std::str::from_utf8(text).ok()?;
    let (_, rest) = text.split_once(" frames 20 hash ")?;
    let (hash, _) = rest.split_once(' ')?;
    Some(hash)
}

/// The hash that the first seat printed.
fn first_hash(seats: &[Seat]) -> Option<&str> {
    hash(seats.first()?.out.bytes())
}

/// The first of the ports that are tried, and how many they are. They end below those from which
/// systems dial, so that no dialling socket has one of them.
const FIRST_PORT: u32 = 20_000;

const PORTS: u32 = 12_000;

/// A port of the loopback at which nothing listens.
fn free_port<N: Net>(alloc: Global, net: &mut N, first: u32) -> Result<u32, Fail>
    requires { first < PORTS }
{
    for step in 0..200 {
        let port = FIRST_PORT + (first + step) % PORTS;
        let at = format!(in alloc; "127.0.0.1:{port}")?;
        if net.listen(&at).is_ok() {
            return Ok(port);
        }
    }
    Err(Fail::new("no port is free"))
}

#[test]
fn a_served_match_of_two_players(rt: HostRuntime) -> Result<(), Fail> {
    let first = process::id(rt.process()) % PORTS;
    let port = free_port(rt.alloc(), &mut TcpNet::new(&rt), first)?;
    let mut seats = seats_at(rt.alloc(), port)?;
    run_seats(&rt, seats.as_mut_slice());
    let played = first_hash(seats.as_slice());
    assert!(rt; played.is_some());
    for seat in seats.iter() {
        assert_eq!(rt; seat.status, 0);
        assert_eq!(rt; hash(seat.out.bytes()), played);
    }
    Ok(())
}
