//! Queues of activities.

use activities::{Activity, Queue};
use world_units::CPos;

/// An attack on an actor, another activity for each number.
fn attack(target: u32) -> Activity {
    Activity::Attack { target, waits: 0 }
}

#[test]
fn queue_of_sixteen(rt: HostRuntime) {
    let mut queue = Queue::empty();
    assert!(rt; queue.head().is_none() && queue.pop().is_none());
    for target in 0..16 {
        assert!(rt; queue.append(attack(target)));
    }
    assert!(rt; !queue.append(attack(16)));
    let twin = queue.copy();
    assert_eq!(rt; queue, twin);
    assert_eq!(rt; queue.pop(), Some(attack(0)));
    assert!(rt; queue != twin);
    assert_eq!(rt; queue.len(), 15);
    assert_eq!(rt; queue.as_slice().last().copied(), Some(attack(15)));
}

#[test]
fn head_and_rest(rt: HostRuntime) {
    let cell = CPos { x: 3, y: 4 };
    let mut queue = Queue::empty();
    queue.replace(attack(1));
    assert!(rt;
        queue.append(Activity::Harvest {
            cell,
            timer: 0,
            waits: 0
        })
    );
    queue.set_head(Activity::Deliver {
        home: cell,
        timer: 9,
        waits: 7,
    });
    assert_eq!(rt;
        queue.head().copied(),
        Some(Activity::Deliver {
            home: cell,
            timer: 9,
            waits: 7
        })
    );
    queue.replace(Activity::Move {
        goal: cell,
        waits: 2,
    });
    assert_eq!(rt; queue.len(), 1);
    assert_eq!(rt;
        queue.pop(),
        Some(Activity::Move {
            goal: cell,
            waits: 2
        })
    );
    queue.replace(attack(2));
    queue.clear();
    assert_eq!(rt; queue, Queue::empty());
}
