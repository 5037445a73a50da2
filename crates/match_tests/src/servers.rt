//! What a server answers.

use frame_core::{Leaving, Put, Tally, TickAnswer};
use game_orders::{Entry, MAX_FRAMES, Orders};
use order_packets::Up;
use server_core::{Alarm, Reported, Server, UpAnswer};
use std::process::Abort;
use std::test::Fail;

/// A call with the answer that is wanted.
#[derive(Drop)]
enum Call {
    Up(u8, Up, UpAnswer),
    Drop(u8, Leaving),
    Tick(TickAnswer),
    Alarm(u8, Option<Alarm>),
}

fn orders(frame: u32) -> Up {
    Up::Orders {
        frame,
        orders: Orders::empty(),
    }
}

fn answer(rt: &impl Abort, server: &mut Server<Tally>, call: Call) -> Result<(), Fail> {
    match call {
        Call::Up(c, packet, want) => {
            assert!(rt; c < server.columns().clients());
            assert_eq!(rt; server.up(c, &packet)?, want);
        }
        Call::Drop(c, want) => {
            assert!(rt; c < server.columns().clients());
            assert_eq!(rt; server.drop_client(c), want);
        }
        Call::Tick(want) => assert_eq!(rt; server.tick()?, want),
        Call::Alarm(c, want) => {
            assert!(rt; c < server.board().clients());
            assert_eq!(rt; server.board().alarm(c), want);
        }
    }
    Ok(())
}

#[test]
fn two_clients(rt: HostRuntime) -> Result<(), Fail> {
    let mut server = Server::create(rt.alloc(), 2, Tally::new())?;
    let calls = [
        Call::Up(
            0,
            Up::Hello {
                version: 1,
                rules: 0,
            },
            UpAnswer::Ignored,
        ),
        Call::Up(0, orders(0), UpAnswer::Entry(Put::Fixed)),
        Call::Up(0, orders(0), UpAnswer::Entry(Put::Repeat)),
        Call::Up(0, orders(2), UpAnswer::Entry(Put::Ahead(1))),
        Call::Up(
            1,
            Up::Sync { frame: 1, hash: 9 },
            UpAnswer::Report(Reported::Kept),
        ),
        Call::Up(
            1,
            Up::Sync { frame: 0, hash: 3 },
            UpAnswer::Report(Reported::Kept),
        ),
        Call::Up(
            1,
            Up::Sync { frame: 0, hash: 8 },
            UpAnswer::Report(Reported::Repeat),
        ),
        Call::Up(
            1,
            Up::Sync {
                frame: MAX_FRAMES,
                hash: 3,
            },
            UpAnswer::Report(Reported::Beyond),
        ),
        Call::Tick(TickAnswer::NotYet(1)),
        Call::Alarm(1, None),
        Call::Up(1, Up::Bye, UpAnswer::Bye(Leaving::Fixed(0))),
        Call::Drop(1, Leaving::Already(0)),
        Call::Tick(TickAnswer::Ticked(0)),
        Call::Alarm(1, None),
        Call::Up(0, orders(1), UpAnswer::Entry(Put::Fixed)),
        Call::Tick(TickAnswer::Ticked(1)),
        Call::Alarm(
            1,
            Some(Alarm {
                frame: 1,
                got: 9,
                want: 5,
            }),
        ),
        Call::Tick(TickAnswer::NotYet(0)),
        Call::Drop(0, Leaving::Fixed(2)),
        Call::Tick(TickAnswer::Over),
        Call::Up(
            0,
            Up::Sync { frame: 1, hash: 1 },
            UpAnswer::Report(Reported::Kept),
        ),
        Call::Alarm(
            0,
            Some(Alarm {
                frame: 1,
                got: 1,
                want: 5,
            }),
        ),
        Call::Up(
            0,
            Up::Sync { frame: 0, hash: 2 },
            UpAnswer::Report(Reported::Kept),
        ),
        Call::Alarm(
            0,
            Some(Alarm {
                frame: 0,
                got: 2,
                want: 3,
            }),
        ),
    ];
    for call in calls {
        answer(&rt, &mut server, call)?;
    }
    assert_eq!(rt; *server.marks(), *[3, 5].as_slice());
    assert_eq!(rt; (server.ticked(), server.sim().step_count()), (2, 2));
    Ok(())
}
