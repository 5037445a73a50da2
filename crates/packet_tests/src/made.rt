use drill::made_drill;
use drill_words::EventView;
use game_orders::Order;

#[test]
fn made_drill_of_seven(rt: HostRuntime) {
    let drill = made_drill(rt.alloc(), 7).expect(&rt, "ample memory");
    assert_eq!(rt; (drill.clients, drill.lag, drill.seed), (4, 3, 7));
    assert_eq!(rt; drill.events.len(), 21_465);
    let EventView::Seal { peer: 1, orders } = drill.events.get(1) else {
        panic!(rt; "the second event is a seal of client 1");
    };
    let orders = orders.copy();
    assert_eq!(rt; orders.len(), 1);
    assert!(rt;
        matches!(
            orders.get(0),
            Some(Order::Attack {
                actor: 11,
                target: 7,
                queued: false
            })
        )
    );
    assert!(rt; matches!(drill.events.get(3), EventView::Seal { peer: 3, .. }));
    assert!(rt; matches!(drill.events.get(11), EventView::Up { packet: 0 }));
    assert!(rt; matches!(drill.events.get(21_456), EventView::TickServer));
    assert!(rt; matches!(drill.events.get(21_457), EventView::Report { peer: 0 }));
    assert!(rt; matches!(drill.events.get(21_464), EventView::Up { packet: 3_099 }));
}
