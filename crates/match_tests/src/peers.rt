//! What a peer answers.

use crate::entries::{donation, play};
use frame_core::{Tally, TickAnswer};
use game_orders::{Entry, MAX_FRAMES, Order, Orders};
use peer_core::{Delivered, Peer, Receipt, Report, SealFault};
use std::process::Abort;
use std::test::Fail;

fn peer(rt: &HostRuntime) -> Result<Peer<Tally>, Fail> {
    Ok(Peer::create(rt.alloc(), 0, 2, 2, Tally::new())?)
}

fn deliver(
    rt: &impl Abort,
    peer: &mut Peer<Tally>,
    c: u8,
    n: u32,
    e: Entry,
) -> Result<Delivered, Fail> {
    assert!(rt; c < peer.clients());
    Ok(peer.deliver(c, n, e)?)
}

fn receive(
    rt: &impl Abort,
    peer: &mut Peer<Tally>,
    c: u8,
    n: u32,
    e: &Entry,
) -> Result<Receipt, Fail> {
    assert!(rt; c < peer.clients());
    Ok(peer.receive(c, n, e)?)
}

fn receipt(answer: &Delivered) -> Receipt {
    match answer {
        Delivered::Kept => Receipt::Kept,
        Delivered::Repeat => Receipt::Repeat,
        Delivered::Conflict(_) => Receipt::Conflict,
        Delivered::Past(at) => Receipt::Past(*at),
        Delivered::Beyond => Receipt::Beyond,
    }
}

/// A call with the answer that is wanted.
#[derive(Drop)]
enum Call {
    Seal(Result<u32, SealFault>),
    Tick(TickAnswer),
    Deliver(u8, u32, Entry, Delivered),
    Tell(Option<Report>),
}

#[test]
fn ticks_what_reached_it(rt: HostRuntime) -> Result<(), Fail> {
    let mut peer = peer(&rt)?;
    let calls = [
        Call::Seal(Ok(0)),
        Call::Seal(Ok(1)),
        Call::Seal(Err(SealFault::TooEarly)),
        Call::Tick(TickAnswer::NotYet(0)),
        Call::Deliver(0, 0, play(), Delivered::Kept),
        Call::Tick(TickAnswer::NotYet(1)),
        Call::Deliver(1, 1, play(), Delivered::Kept),
        Call::Tick(TickAnswer::NotYet(1)),
        Call::Deliver(1, 0, play(), Delivered::Kept),
        Call::Deliver(1, 0, play(), Delivered::Repeat),
        Call::Deliver(1, 0, donation(), Delivered::Conflict(play())),
        Call::Tell(None),
        Call::Tick(TickAnswer::Ticked(0)),
        Call::Tell(Some(Report { frame: 0, hash: 3 })),
        Call::Seal(Ok(2)),
        Call::Seal(Err(SealFault::TooEarly)),
        Call::Deliver(1, 2, Entry::Leave, Delivered::Kept),
        Call::Deliver(1, 3, play(), Delivered::Past(2)),
        Call::Deliver(0, 1, Entry::Leave, Delivered::Kept),
        Call::Seal(Err(SealFault::LeftAlready)),
        Call::Tick(TickAnswer::Ticked(1)),
        Call::Tell(Some(Report { frame: 1, hash: 4 })),
        Call::Tick(TickAnswer::Over),
    ];
    for call in calls {
        match call {
            Call::Seal(want) => assert_eq!(rt; peer.seal(), want),
            Call::Tick(want) => assert_eq!(rt; peer.tick(), want),
            Call::Deliver(c, n, e, want) => assert_eq!(rt;
                deliver(&rt, &mut peer, c, n, e)?,
                want,
                "client {c} at {n}"
            ),
            Call::Tell(want) => assert_eq!(rt; peer.report(), want),
        }
    }
    assert_eq!(rt; (peer.me(), peer.clients(), peer.lag()), (0, 2, 2));
    assert_eq!(rt;
        (peer.ticked(), peer.sealed(), peer.sim().step_count()),
        (2, 3, 2)
    );
    Ok(())
}

#[test]
fn deliveries_by_their_case(rt: HostRuntime) -> Result<(), Fail> {
    let mut lent = peer(&rt)?;
    let mut peer = peer(&rt)?;
    let deliveries = [
        (1, 9, play(), Delivered::Kept),
        (1, 7, play(), Delivered::Kept),
        (1, 3, Entry::Leave, Delivered::Past(7)),
        (1, 7, Entry::Leave, Delivered::Conflict(play())),
        (1, 8, Entry::Leave, Delivered::Past(9)),
        (1, MAX_FRAMES, play(), Delivered::Beyond),
        (1, MAX_FRAMES + 1, Entry::Leave, Delivered::Beyond),
        (1, MAX_FRAMES, Entry::Leave, Delivered::Kept),
        (1, MAX_FRAMES, Entry::Leave, Delivered::Repeat),
        (0, 7, donation(), Delivered::Kept),
        (0, 8, Entry::Leave, Delivered::Kept),
        (0, 8, play(), Delivered::Conflict(Entry::Leave)),
        (0, 9, play(), Delivered::Past(8)),
        (0, 9, Entry::Leave, Delivered::Past(8)),
        (0, 7, donation(), Delivered::Repeat),
        (0, 7, amount_play(2), Delivered::Conflict(donation())),
        (0, 7, donations(2), Delivered::Conflict(donation())),
        (0, 6, play(), Delivered::Kept),
        (0, 6, donation(), Delivered::Conflict(play())),
        (0, 5, donations(2), Delivered::Kept),
        (0, 5, donations(2), Delivered::Repeat),
        (0, 5, donations(3), Delivered::Conflict(donations(2))),
    ];
    for (c, n, e, want) in deliveries {
        assert_eq!(rt;
            receive(&rt, &mut lent, c, n, &e)?,
            receipt(&want),
            "client {c} at {n}"
        );
        assert_eq!(rt;
            deliver(&rt, &mut peer, c, n, e)?,
            want,
            "client {c} at {n}"
        );
    }
    Ok(())
}

#[test]
fn entries_from_the_last_to_the_first(rt: HostRuntime) -> Result<(), Fail> {
    let mut peer = peer(&rt)?;
    assert_eq!(rt;
        deliver(&rt, &mut peer, 1, 0, Entry::Leave)?,
        Delivered::Kept
    );
    for n in (0..20_000).rev() {
        assert_eq!(rt; peer.tick(), TickAnswer::NotYet(0));
        assert_eq!(rt; deliver(&rt, &mut peer, 0, n, play())?, Delivered::Kept);
    }
    for n in 0..20_000 {
        assert_eq!(rt; peer.tick(), TickAnswer::Ticked(n));
    }
    assert_eq!(rt; peer.tick(), TickAnswer::NotYet(0));
    Ok(())
}

/// A play whose one order has this amount.
fn amount_play(amount: u32) -> Entry {
    let mut orders = Orders::empty();
    let _ = orders.try_push(Order::Donate { to: 0, amount });
    Entry::Play(orders)
}

/// A play of so many orders.
fn donations(count: u32) -> Entry {
    let mut orders = Orders::empty();
    for amount in 0..count {
        let _ = orders.try_push(Order::Donate { to: 0, amount });
    }
    Entry::Play(orders)
}

#[test]
fn entries_in_any_order(rt: HostRuntime) -> Result<(), Fail> {
    let mut peer = peer(&rt)?;
    assert_eq!(rt;
        deliver(&rt, &mut peer, 1, 0, Entry::Leave)?,
        Delivered::Kept
    );
    for k in 0..1_000 {
        let n = k * 619 % 1_000;
        assert_eq!(rt;
            deliver(&rt, &mut peer, 0, n, amount_play(n))?,
            Delivered::Kept
        );
    }
    for n in 0..1_000 {
        let kept = Delivered::Conflict(amount_play(n));
        assert_eq!(rt; deliver(&rt, &mut peer, 0, n, Entry::Leave)?, kept);
        assert_eq!(rt; peer.tick(), TickAnswer::Ticked(n));
    }
    Ok(())
}

#[test]
fn a_match_of_all_its_frames(rt: HostRuntime) -> Result<(), Fail> {
    let mut peer = peer(&rt)?;
    assert_eq!(rt;
        deliver(&rt, &mut peer, 1, 0, Entry::Leave)?,
        Delivered::Kept
    );
    assert_eq!(rt; peer.seal(), Ok(0));
    assert_eq!(rt; peer.seal(), Ok(1));
    assert_eq!(rt; peer.seal(), Err(SealFault::TooEarly));
    for n in 0..262_142 {
        assert_eq!(rt; deliver(&rt, &mut peer, 0, n, play())?, Delivered::Kept);
        assert_eq!(rt; peer.tick(), TickAnswer::Ticked(n));
        assert_eq!(rt; peer.seal(), Ok(n + 2));
    }
    // Its lag lets it seal no more either, but that the match is full comes first.
    assert_eq!(rt; (peer.ticked(), peer.sealed()), (262_142, 262_144));
    assert_eq!(rt; peer.seal(), Err(SealFault::MatchFull));
    for n in 262_142..262_144 {
        assert_eq!(rt; deliver(&rt, &mut peer, 0, n, play())?, Delivered::Kept);
        assert_eq!(rt; peer.tick(), TickAnswer::Ticked(n));
    }
    assert_eq!(rt; peer.seal(), Err(SealFault::MatchFull));
    assert_eq!(rt; peer.tick(), TickAnswer::NotYet(0));
    assert_eq!(rt;
        deliver(&rt, &mut peer, 0, MAX_FRAMES, play())?,
        Delivered::Beyond
    );
    assert_eq!(rt;
        deliver(&rt, &mut peer, 0, MAX_FRAMES, Entry::Leave)?,
        Delivered::Kept
    );
    assert_eq!(rt; peer.seal(), Err(SealFault::LeftAlready));
    assert_eq!(rt; peer.tick(), TickAnswer::Over);
    Ok(())
}
