//! Columns, put and left.

use crate::entries::{donation, play};
use frame_core::{Columns, Leaving, Put, Ready};
use game_orders::{Entry, MAX_FRAMES};
use std::process::Abort;
use std::test::Fail;

fn put(rt: &impl Abort, columns: &mut Columns, c: u8, n: u32, e: Entry) -> Result<Put, Fail> {
    assert!(rt; c < columns.clients());
    Ok(columns.put(c, n, e)?)
}

fn leave(rt: &impl Abort, columns: &mut Columns, c: u8) -> Leaving {
    assert!(rt; c < columns.clients());
    columns.leave(c)
}

#[test]
fn two_clients(rt: HostRuntime) -> Result<(), Fail> {
    let mut columns = Columns::create(rt.alloc(), 2)?;
    assert_eq!(rt; put(&rt, &mut columns, 0, 0, play())?, Put::Fixed);
    assert_eq!(rt; put(&rt, &mut columns, 0, 0, play())?, Put::Repeat);
    assert_eq!(rt;
        put(&rt, &mut columns, 0, 0, donation())?,
        Put::Conflict(play())
    );
    assert_eq!(rt; put(&rt, &mut columns, 0, 2, Entry::Leave)?, Put::Ahead(1));
    assert_eq!(rt; leave(&rt, &mut columns, 0), Leaving::Fixed(1));
    assert_eq!(rt; leave(&rt, &mut columns, 0), Leaving::Already(1));
    assert_eq!(rt;
        put(&rt, &mut columns, 0, 1, play())?,
        Put::Conflict(Entry::Leave)
    );
    assert_eq!(rt; put(&rt, &mut columns, 0, 5, Entry::Leave)?, Put::Left(1));
    assert_eq!(rt; columns.ready(0), Ready::NotYet(1));
    assert_eq!(rt; leave(&rt, &mut columns, 1), Leaving::Fixed(0));
    assert_eq!(rt; columns.ready(0), Ready::Yes);
    assert_eq!(rt; columns.ready(1), Ready::Over);
    Ok(())
}

#[test]
fn a_full_column(rt: HostRuntime) -> Result<(), Fail> {
    let mut columns = Columns::create(rt.alloc(), 1)?;
    for n in 0..MAX_FRAMES {
        assert_eq!(rt; put(&rt, &mut columns, 0, n, play())?, Put::Fixed);
    }
    assert_eq!(rt; put(&rt, &mut columns, 0, MAX_FRAMES, play())?, Put::Full);
    assert_eq!(rt;
        put(&rt, &mut columns, 0, MAX_FRAMES, Entry::Leave)?,
        Put::Fixed
    );
    Ok(())
}
