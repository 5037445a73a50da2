//! Matches over the least world, on threads.
use base::NoMemory;
use drill_words::{MAX_DRILL_BYTES, read_script};
use frame_core::{Sim, Tally};
use game_io::{Gate, HoldGate, NoGate, NoWatch};
use game_orders::Orders;
use match_run::{Bots, IdleBots, run_local, run_with_bots};
use std::alloc::{AllocError, Global};
use std::process::Abort;
use std::sync::Wait;
use std::sync::atomic::{AtomicU64, Ordering};
use std::test::Fail;
use std::thread::Threads;

/// The hash of the world after a match of two clients with this script. The least world hashes to
/// twice its steps, and one more where client 0 played last.
fn hash_after<R: Abort + Threads + Wait + Sync, G: Gate + Sync>(
    rt: &R,
    alloc: Global,
    script: &[u8],
    gate: &G,
) -> Result<u64, Fail> {
    assert!(rt; script.len() <= MAX_DRILL_BYTES as usize);
    let Ok((_seed, scripts)) = read_script(alloc, script, false) else {
        return Ok(u64::MAX);
    };
    assert!(rt; scripts.clients() == 2);
    let run = run_local(rt, alloc, &scripts, Tally::new(), gate)?;
    Ok(run.sim.hash())
}

/// Scripts, and the hash of the world after each.
const SCRIPTS: [(&[u8], u64); 4] = [
    (b"script 2 9", 0),
    (b"script 2 9\n0\n1\n0\n1\n0\n1", 7),
    (b"script 2 9\n0\n1\n1\n1\n1", 8),
    (b"script 2 9\n0\n0\n0", 7),
];

#[test]
fn two_clients(rt: HostRuntime) -> Result<(), Fail> {
    for (script, want) in SCRIPTS {
        assert_eq!(rt;
            hash_after(&rt, rt.alloc(), script, &NoGate)?,
            want,
            "{script:?}"
        );
    }
    Ok(())
}

/// A single thread that plays for both clients would not pass the gate.
#[test]
fn each_client_has_a_thread(rt: HostRuntime) -> Result<(), Fail> {
    let gate = HoldGate::new();
    let script = b"script 2 9\n0\n0\n1\n1\n";
    assert_eq!(rt; hash_after(&rt, rt.alloc(), script, &gate)?, 5);
    assert!(rt; !gate.timed_out());
    Ok(())
}

/// A gate that never holds. It notes what it is asked for each of clients 0 and 1: a hexadecimal
/// digit a call, `2 n + 1` before the play of frame n and `2 n + 2` after it.
#[derive(Drop)]
struct NotingGate {
    first: AtomicU64,
    second: AtomicU64,
}

impl NotingGate {
    fn note(&self, client: u8, digit: u32) {
        let notes = if client == 0 {
            &self.first
        } else {
            &self.second
        };
        let noted = notes.load(Ordering::SeqCst);
        notes.store(
            noted.wrapping_mul(16).wrapping_add(u64::from(digit)),
            Ordering::SeqCst,
        );
    }
}

impl Gate for NotingGate {
    type Watch = NoWatch;

    fn before(&self, client: u8, frame: u32) {
        self.note(client, frame.wrapping_mul(2).wrapping_add(1));
    }

    fn after(&self, client: u8, frame: u32) {
        self.note(client, frame.wrapping_mul(2).wrapping_add(2));
    }

    fn watch(&self) -> &NoWatch {
        NoWatch::lent()
    }
}

#[test]
fn each_play_comes_to_the_gate(rt: HostRuntime) -> Result<(), Fail> {
    let gate = NotingGate {
        first: AtomicU64::new(0),
        second: AtomicU64::new(0),
    };
    let script = b"script 2 9\n0\n1\n0\n0\n";
    assert_eq!(rt; hash_after(&rt, rt.alloc(), script, &gate)?, 7);
    assert_eq!(rt; gate.first.load(Ordering::SeqCst), 0x12_34_56);
    assert_eq!(rt; gate.second.load(Ordering::SeqCst), 0x12);
    Ok(())
}

/// Bots that are out of memory at once.
#[derive(Drop)]
struct PoorBots;

impl Bots<Tally> for PoorBots {
    ghost use Rattle.std.specs.Prelude.{[]};

    ghost orders_of = { λ bots sim c. [] };

    fn orders(&self, _sim: &Tally, _c: u8) -> Result<Orders, NoMemory> {
        Err(AllocError)
    }
}

/// The hash of the world after a match of one client with this script and one bot. It is 99 where
/// the match was out of memory.
fn hash_beside<B: Bots<Tally>, R: Abort + Threads + Wait + Sync>(
    rt: &R,
    alloc: Global,
    script: &[u8],
    bots: &B,
) -> Result<u64, Fail> {
    assert!(rt; script.len() <= MAX_DRILL_BYTES as usize);
    let Ok((_seed, scripts)) = read_script(alloc, script, false) else {
        return Ok(u64::MAX);
    };
    assert!(rt; scripts.clients() == 1);
    match run_with_bots(rt, alloc, &scripts, Tally::new(), bots, 1, &NoGate) {
        Ok(run) => Ok(run.sim.hash()),
        Err(_) => Ok(99),
    }
}

/// A bot plays as many frames as the longest script has. The first client plays the last of them.
#[test]
fn a_bot_beside_a_script(rt: HostRuntime) -> Result<(), Fail> {
    for (script, want) in [
        (b"script 1 9".as_slice(), 0),
        (b"script 1 9\n0".as_slice(), 3),
        (b"script 1 9\n0\n0\n0".as_slice(), 7),
    ] {
        assert_eq!(rt; hash_beside(&rt, rt.alloc(), script, &IdleBots)?, want);
    }
    Ok(())
}

/// Memory that a bot is refused ends the match, at its first frame.
#[test]
fn a_bot_out_of_memory(rt: HostRuntime) -> Result<(), Fail> {
    assert_eq!(rt;
        hash_beside(&rt, rt.alloc(), b"script 1 9\n0", &PoorBots)?,
        99
    );
    assert_eq!(rt; hash_beside(&rt, rt.alloc(), b"script 1 9", &PoorBots)?, 0);
    Ok(())
}
