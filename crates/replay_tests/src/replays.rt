//! A match of two clients over the least world, recorded, run again and migrated.
ghost use Rattle.std.specs.Prelude.{◌≡◌};
ghost use Rattle.replay_file.specs.ValidReplay.{IsValidReplay};

use frame_core::Tally;
use game_orders::Orders;
use order_packets::Up;
use replay_file::{Replay, read_replay};
use replay_run::{
    Difference, Migration, ReplayStepper, frame_count, migrate, migrated_text, record_of,
    replay_text, run_replay, run_replay_from, world_after,
};
use server_core::Server;
use std::alloc::Global;
use std::process::Abort;
use std::test::Fail;

/// The record of the match: both play frame 0, then client 1 has left. Each step counts 2 for the
/// hash, and 1 more where client 0 plays; the hash of the first version is the number of steps.
static RECORD: [u8; 47] = [
    b'L', b'S', b'R', b'P', 2, 0, 7, 0, 0, 0, 0, 0, 0, 0, 9, 0, 0, 0, 2, //
    1, 1, 0, 1, 0, //
    2, 3, 0, 0, 0, 0, 0, 0, 0, //
    1, 1, 0, 0, //
    2, 5, 0, 0, 0, 0, 0, 0, 0, //
    0,
];

fn orders(frame: u32) -> Up {
    Up::Orders {
        frame,
        orders: Orders::empty(),
    }
}

#[test]
fn a_match_is_recorded(rt: HostRuntime) -> Result<(), Fail> {
    let mut server = Server::create(rt.alloc(), 2, Tally::new())?;
    let calls = [(0, orders(0)), (1, orders(0)), (1, Up::Bye), (0, orders(1))];
    for (client, packet) in &calls {
        assert!(rt; *client < server.columns().clients());
        server.up(*client, packet)?;
        server.tick()?;
    }
    assert_eq!(rt; server.ticked(), 2);
    assert_eq!(rt; *record_of(rt.alloc(), 7, 9, &server)?, *RECORD.as_slice());
    Ok(())
}

/// What is printed of the world in the end.
const END: &str = "replay frames 2 hash 0000000000000005 actors 0 cash 0 0\nend\n";

/// The same match in the first version, with marks before the first frame and after the last.
static FIRST: [u8; 47] = [
    b'L', b'S', b'R', b'P', 1, 0, 7, 0, 0, 0, 0, 0, 0, 0, 9, 0, 0, 0, 2, //
    2, 0, 0, 0, 0, 0, 0, 0, 0, //
    1, 1, 0, 1, 0, //
    1, 1, 0, 0, //
    2, 2, 0, 0, 0, 0, 0, 0, 0, //
    0,
];

/// That match in the second version.
static MIGRATED: [u8; 47] = [
    b'L', b'S', b'R', b'P', 2, 0, 7, 0, 0, 0, 0, 0, 0, 0, 9, 0, 0, 0, 2, //
    2, 0, 0, 0, 0, 0, 0, 0, 0, //
    1, 1, 0, 1, 0, //
    1, 1, 0, 0, //
    2, 5, 0, 0, 0, 0, 0, 0, 0, //
    0,
];

/// These bytes with another byte at a place.
fn changed(bytes: &[u8; 47], at: usize, byte: u8) -> [u8; 47] {
    let mut new = *bytes;
    if let Some(place) = new.get_mut(at) {
        *place = byte;
    }
    new
}

/// Compares what is printed of a replay with what is wanted.
fn prints(rt: &impl Abort, alloc: Global, bytes: &[u8], mark: &str) -> Result<(), Fail> {
    let r = read_replay(alloc, bytes, 7)?;
    assert!(rt; r.clients == 2);
    let text = replay_text(alloc, &run_replay(Tally::new(), &r))?;
    let mut want = String::from_str(alloc, mark)?;
    want.push_str(END)?;
    assert_eq!(rt; text, want);
    Ok(())
}

#[test]
fn replays_are_run(rt: HostRuntime) -> Result<(), Fail> {
    let rows: [([u8; 47], &str); 5] = [
        (RECORD, ""),
        (FIRST, ""),
        (
            changed(&RECORD, 38, 6),
            "mark 2 file 0000000000000006 here 0000000000000005\n",
        ),
        (
            changed(&changed(&RECORD, 38, 6), 25, 2),
            "mark 1 file 0000000000000002 here 0000000000000003\n",
        ),
        (
            changed(&FIRST, 38, 5),
            "mark 2 file 0000000000000005 here 0000000000000002\n",
        ),
    ];
    for (bytes, mark) in &rows {
        prints(&rt, rt.alloc(), bytes, mark)?;
    }
    Ok(())
}

/// Goes on from the world after so many frames, and compares what is printed with what is wanted.
fn goes_on(rt: &impl Abort, alloc: Global, from: u32, r: &Replay, mark: &str) -> Result<(), Fail>
    requires valid { IsValidReplay r.now }
    requires clients { r.now.clients ≡ 2 }
{
    assert!(rt; from <= frame_count(r));
    let world = world_after(Tally::new(), r, from);
    let text = replay_text(alloc, &run_replay_from(world, from, r))?;
    let mut want = String::from_str(alloc, mark)?;
    want.push_str(END)?;
    assert_eq!(rt; text, want);
    Ok(())
}

#[test]
fn replays_go_on_from_each_frame(rt: HostRuntime) -> Result<(), Fail> {
    let first = "mark 1 file 0000000000000002 here 0000000000000003\n";
    let last = "mark 2 file 0000000000000006 here 0000000000000005\n";
    let r = read_replay(rt.alloc(), &changed(&changed(&RECORD, 38, 6), 25, 2), 7)?;
    assert!(&rt; r.clients == 2);
    for (from, mark) in [(0, first), (1, first), (2, last)] {
        goes_on(&rt, rt.alloc(), from, &r, mark)?;
    }
    Ok(())
}

#[test]
fn a_replay_is_stepped(rt: HostRuntime) -> Result<(), Fail> {
    let r = read_replay(rt.alloc(), &changed(&RECORD, 38, 6), 7)?;
    assert!(&rt; r.clients == 2);
    let mut run = ReplayStepper::begin(Tally::new(), r);
    let last = Difference {
        frames: 2,
        file: 6,
        here: 5,
    };
    // a mark is compared as soon as the frame before it was stepped
    for difference in [None, Some(last)] {
        assert!(&rt; run.step());
        assert_eq!(rt; run.so_far().difference, difference);
    }
    assert!(&rt; !run.step());
    assert_eq!(rt; run.so_far().frames, 2);
    Ok(())
}

#[test]
fn replays_are_migrated(rt: HostRuntime) -> Result<(), Fail> {
    let r = read_replay(rt.alloc(), &FIRST, 7)?;
    assert!(&rt; r.clients == 2);
    let Migration::Migrated {
        bytes,
        frames,
        marks,
    } = migrate(rt.alloc(), Tally::new(), &r)?
    else {
        return Ok(assert!(&rt; false));
    };
    assert_eq!(rt; *bytes, *MIGRATED.as_slice());
    let text = migrated_text(rt.alloc(), frames, marks)?;
    assert_eq!(rt; text.as_str(), "migrated frames 2 marks 2\nend\n");
    Ok(())
}
