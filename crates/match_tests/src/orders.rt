//! Orders, entries and frames.

use game_orders::{Entry, Frame, Order, Orders, PerClient};
use std::process::Abort;

fn orders_of(rt: &impl Abort, amounts: &[u32]) -> Orders {
    let mut orders = Orders::empty();
    for amount in amounts {
        assert!(rt;
            orders.try_push(Order::Donate {
                to: 1,
                amount: *amount
            })
        );
    }
    orders
}

#[test]
fn at_most_sixteen(rt: HostRuntime) {
    let mut orders = orders_of(&rt, &[0, 1, 2, 3, 4, 5, 6, 7, 8, 9, 10, 11, 12, 13, 14, 15]);
    assert_eq!(rt; orders.len(), 16);
    assert!(rt; !orders.try_push(Order::Donate { to: 1, amount: 16 }));
    assert_eq!(rt; orders.len(), 16);
    assert!(rt; matches!(orders.get(15), Some(Order::Donate { to: 1, amount: 15 })));
    assert!(rt; orders.get(16).is_none());
    assert!(rt; orders.copy() == orders && !orders.is_empty());
}

#[test]
fn entries_of_a_frame(rt: HostRuntime) {
    let mut frame = Frame::empty();
    assert!(rt; frame.is_empty());
    frame.push(Entry::Play(orders_of(&rt, &[7])));
    frame.push(Entry::Leave);
    assert_eq!(rt; frame.len(), 2);
    assert!(rt;
        frame
            .get(0)
            .is_some_and(|e| e.is_play() && *e == Entry::Play(orders_of(&rt, &[7])))
    );
    assert!(rt;
        frame
            .get(0)
            .is_some_and(|e| *e != Entry::Play(orders_of(&rt, &[8])))
    );
    assert!(rt; frame.get(1).is_some_and(|e| e.copy() == Entry::Leave));
    assert!(rt; frame.get(2).is_none());
    frame.clear();
    assert!(rt; frame.is_empty() && frame.get(0).is_none());
    frame.push_play(orders_of(&rt, &[9, 8]).as_slice());
    assert!(rt;
        frame
            .get(0)
            .is_some_and(|e| *e == Entry::Play(orders_of(&rt, &[9, 8])))
    );
    assert_eq!(rt; frame.len(), 1);
}

#[test]
fn one_value_for_each_client(rt: HostRuntime) {
    let mut cash = PerClient::create(3, 1_000);
    cash.set(1, 400);
    assert_eq!(rt; cash.as_slice(), [1_000, 400, 1_000].as_slice());
    assert_eq!(rt; (cash.get(1), cash.get(2), cash.clients()), (400, 1_000, 3));
    let mut gone = PerClient::create(2, false);
    gone.set(0, true);
    assert_eq!(rt; gone.copy().as_slice(), [true, false].as_slice());
}
