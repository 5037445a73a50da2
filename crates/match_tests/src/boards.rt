//! Reports of hashes, and alarms.

use game_orders::MAX_FRAMES;
use server_core::{Alarm, Board, Reported};
use std::test::Fail;

#[test]
fn reports_and_alarms(rt: HostRuntime) -> Result<(), Fail> {
    let mut board = Board::create(rt.alloc(), 16)?;
    assert_eq!(rt; board.clients(), 16);
    let none = None;
    let second = Some(Alarm {
        frame: 1,
        got: 7,
        want: 8,
    });
    let first = Some(Alarm {
        frame: 0,
        got: 6,
        want: 5,
    });
    // client, frame, hash, one more wanted hash, the answer, and the client's alarm then
    let rows = [
        (15, 1, 7, 5, Reported::Kept, none),
        (0, 262_144, 9, 8, Reported::Beyond, none),
        (15, 1, 8, 3, Reported::Repeat, second),
        (15, 262_143, 9, 3, Reported::Kept, second),
        (15, 262_144, 9, 3, Reported::Beyond, second),
        (15, 4_294_967_295, 9, 3, Reported::Beyond, second),
        (15, 0, 6, 3, Reported::Kept, first),
        (0, 1, 8, 3, Reported::Kept, none),
    ];
    for (c, n, h, next, answer, alarm) in rows {
        assert!(rt; c < board.clients());
        board.wanted(next)?;
        assert_eq!(rt; board.reported(c, n, h)?, answer, "client {c} at {n}");
        assert_eq!(rt; board.alarm(c), alarm, "client {c} at {n}");
    }
    Ok(())
}

#[test]
fn each_frame_from_the_last_to_the_first(rt: HostRuntime) -> Result<(), Fail> {
    let mut board = Board::create(rt.alloc(), 1)?;
    for n in (0..MAX_FRAMES).rev() {
        assert!(rt; 0 < board.clients());
        assert_eq!(rt; board.reported(0, n, 1)?, Reported::Kept);
    }
    board.wanted(1)?;
    board.wanted(2)?;
    let alarm = Alarm {
        frame: 1,
        got: 1,
        want: 2,
    };
    assert!(rt; 0 < board.clients());
    assert_eq!(rt; board.alarm(0), Some(alarm));
    Ok(())
}
