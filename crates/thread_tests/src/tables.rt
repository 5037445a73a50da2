ghost use Rattle.std.specs.Prelude.{◌≡◌, ◌<◌, ◌≤◌, length, IfOk, OnOk};
ghost use Rattle.frame_table.specs.Calls.{plan_of, view_of};
ghost use Rattle.thread_tests.specs.Tables.{IsFreePass, IsFeedingPass};
ghost use Rattle.game_orders.specs.declared.limits.TheConstants.{MAX_CLIENTS};

use base::{List, NoMemory};
use frame_core::{Leaving, Put, Ready};
use frame_table::{FrameTable, Pass, Plan, Planned, Seen};
use game_orders::{Entry, MAX_CLIENTS, Order, Orders};
use std::alloc::Global;
use std::process::Abort;
use std::sync::Wait;
use std::test::Fail;

fn donation() -> Entry {
    let mut orders = Orders::empty();
    let _ = orders.try_push(Order::Donate { to: 1, amount: 1 });
    Entry::Play(orders)
}

fn empty_play() -> Entry {
    Entry::Play(Orders::empty())
}

/// A table of so many free columns.
fn begin(alloc: Global, clients: u8) -> Result<(FrameTable, Pass), NoMemory>
    requires least { 1 ≤ clients }
    requires most { clients ≤ MAX_CLIENTS }
    ensures clients { IfOk result (λ made. length (plan_of made.0) ≡ clients) }
    ensures feeds { IfOk result (λ made. IsFeedingPass made.0 made.1) }
    ensures share { IfOk result (λ made. 2 ≤ (view_of made.1).share) }
{
    let mut plan = List::new(alloc);
    for _client in 0..clients {
        plan.push(Planned::Free)?;
    }
    let (table, pass) = FrameTable::create(alloc, clients, Plan::new(plan))?;
    Ok((table, pass))
}

fn put<R: Wait>(
    rt: &R,
    table: &FrameTable,
    pass: &mut Pass,
    c: u8,
    n: u32,
    e: Entry,
) -> Result<Put, NoMemory>
    requires client { c < length (plan_of table.now) }
    requires feeds { IsFeedingPass table.now pass.old }
    ensures { OnOk result (IsFeedingPass table.now pass.new) }
{
    table.put(rt, pass, c, n, e)
}

fn leave<R: Wait>(rt: &R, table: &FrameTable, pass: &mut Pass, c: u8) -> Leaving
    requires client { c < length (plan_of table.now) }
    requires free { IsFreePass table.now pass.old }
    ensures free { IsFreePass table.now pass.new }
    ensures feeds { IsFeedingPass table.now pass.old → IsFeedingPass table.now pass.new }
{
    table.leave(rt, pass, c)
}

fn ready(table: &FrameTable, pass: &mut Pass, n: u32) -> Ready
    requires { IsFeedingPass table.now pass.old }
    ensures { IsFeedingPass table.now pass.new }
{
    table.ready(pass, n)
}

#[test]
fn two_clients(rt: HostRuntime) -> Result<(), Fail> {
    let (table, mut pass) = begin(rt.alloc(), 2)?;
    let (table, pass) = (&table, &mut pass);
    assert_eq!(rt; put(&rt, table, pass, 0, 0, empty_play())?, Put::Fixed);
    assert_eq!(rt; put(&rt, table, pass, 0, 0, empty_play())?, Put::Repeat);
    assert_eq!(rt;
        put(&rt, table, pass, 0, 0, donation())?,
        Put::Conflict(empty_play())
    );
    assert_eq!(rt; put(&rt, table, pass, 0, 2, Entry::Leave)?, Put::Ahead(1));
    assert_eq!(rt; leave(&rt, table, pass, 0), Leaving::Fixed(1));
    assert_eq!(rt; leave(&rt, table, pass, 0), Leaving::Already(1));
    assert_eq!(rt;
        put(&rt, table, pass, 0, 1, empty_play())?,
        Put::Conflict(Entry::Leave)
    );
    assert_eq!(rt; put(&rt, table, pass, 0, 5, Entry::Leave)?, Put::Left(1));
    assert_eq!(rt; ready(table, pass, 0), Ready::NotYet(1));
    assert_eq!(rt; leave(&rt, table, pass, 1), Leaving::Fixed(0));
    assert_eq!(rt; ready(table, pass, 0), Ready::Yes);
    assert_eq!(rt; ready(table, pass, 1), Ready::Over);
    Ok(())
}

/// One client plays frames 0 to `k - 1`, and is kicked.
fn kicked<R: Wait + Abort>(rt: &R, alloc: Global, k: u32) -> Result<(), Fail>
    requires { k ≤ 5 }
{
    let (table, mut kicker) = begin(alloc, 1)?;
    let table = &table;
    let mut feeder = table.split(&mut kicker);
    for n in 0..k {
        assert_eq!(rt;
            put(rt, table, &mut feeder, 0, n, empty_play())?,
            Put::Fixed
        );
    }
    assert_eq!(rt; leave(rt, table, &mut kicker, 0), Leaving::Fixed(k));
    assert_eq!(rt;
        put(rt, table, &mut feeder, 0, k, empty_play())?,
        Put::Conflict(Entry::Leave)
    );
    assert_eq!(rt;
        put(rt, table, &mut feeder, 0, k + 1, empty_play())?,
        Put::Left(k)
    );
    assert_eq!(rt; leave(rt, table, &mut kicker, 0), Leaving::Already(k));
    let all = Seen {
        plays: k,
        left: true,
    };
    assert_eq!(rt; table.seen(&mut feeder, 0), all);
    assert_eq!(rt; table.seen(&mut kicker, 0), all);
    Ok(())
}

#[test]
fn a_kick_at_every_step(rt: HostRuntime) -> Result<(), Fail> {
    for k in 0..6 {
        kicked(&rt, rt.alloc(), k)?;
    }
    Ok(())
}
