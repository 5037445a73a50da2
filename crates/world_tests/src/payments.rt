use game_model::{MAX_CASH, NEUTRAL, Purse};
use production::pay;

#[test]
fn payments(rt: HostRuntime) {
    // Two bales of 25 each, then more than fits, then a payment to nobody.
    let mut purse = Purse::create(2, 1_000);
    pay(&mut purse, 0, 25);
    pay(&mut purse, 0, 25);
    pay(&mut purse, 1, MAX_CASH);
    pay(&mut purse, NEUTRAL, 25);
    assert_eq!(rt; purse.get(0), 1_050);
    assert_eq!(rt; purse.get(1), MAX_CASH);
}
