//! Lists of plays.

use frame_core::PlayList;
use game_orders::{Order, Orders};
use std::process::Abort;
use std::test::Fail;

fn orders(amounts: &[u32]) -> Orders {
    let mut orders = Orders::empty();
    for amount in amounts {
        let _ = orders.try_push(Order::Donate {
            to: 1,
            amount: *amount,
        });
    }
    orders
}

fn play(rt: &impl Abort, list: &PlayList, n: usize) -> Orders {
    assert!(rt; n < list.len());
    list.get(n)
}

#[test]
fn plays_come_back(rt: HostRuntime) -> Result<(), Fail> {
    let mut list = PlayList::new(rt.alloc());
    list.push(&orders(&[7]))?;
    list.push(&orders(&[]))?;
    list.push(&orders(&[8, 9, 10]))?;
    list.push(&orders(&[]))?;
    let copy = list.copy(rt.alloc())?;
    assert_eq!(rt; (list.len(), copy.len()), (4, 4));
    assert_eq!(rt; play(&rt, &list, 0), orders(&[7]));
    assert_eq!(rt; play(&rt, &list, 1), orders(&[]));
    assert_eq!(rt; play(&rt, &copy, 2), orders(&[8, 9, 10]));
    assert_eq!(rt; play(&rt, &copy, 3), orders(&[]));
    Ok(())
}
