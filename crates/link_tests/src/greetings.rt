//! What the first packet of a link decides.
use crate::rows::{bytes_of, cut, text_of};
use game_io::{FailingCall, MemSource, Remains, Source};
use match_net::{Greeting, Invite, greet};
use order_packets::UpFeeder;
use std::alloc::Global;
use std::test::Fail;

/// The hash of no rules and no map.
const RULES: u64 = 0xaf63_bd4c_8601_b7df;

pub const INVITE: Invite = Invite {
    client: 0,
    clients: 1,
    lag: 2,
    seed: 9,
    rules: RULES,
};

/// What the bytes of a link decide, and the bytes.
const LINKS: &str = "\
Welcome|0b00010200dfb701864cbd63af
Welcome|0b00010200dfb701864cbd63af010004
Refuse { code: 1 }|0b000104000000000000000000
Refuse { code: 2 }|0b00010200deb701864cbd63af
Refuse { code: 3 }|0600020000000000
Refuse { code: 3 }|010004
Fault(LengthTooLarge)|0101
Ended|0b00010200dfb701864cbd63
Ended|";

/// What the first bytes of a link decide.
fn greeted<I: Source>(alloc: Global, link: &mut I) -> Result<Greeting, Fail> {
    let mut feeder = UpFeeder::create(alloc)?;
    match greet(&INVITE, &mut feeder, link) {
        Ok(greeting) => Ok(greeting),
        Err(error) => Err(Fail::from(error)),
    }
}

#[test]
fn first_packets(rt: HostRuntime) -> Result<(), Fail> {
    for row in LINKS.lines() {
        let (want, digits) = cut(row)?;
        let mut link = MemSource::new(bytes_of(rt.alloc(), digits)?, Vec::new(rt.alloc()));
        let greeting = greeted(rt.alloc(), &mut link)?;
        assert_eq!(rt; text_of(rt.alloc(), &greeting)?.as_str(), want);
    }
    Ok(())
}

#[test]
fn a_link_that_fails(rt: HostRuntime) -> Result<(), Fail> {
    let mut failing = Vec::new(rt.alloc());
    failing.push(FailingCall {
        call: 1,
        remains: Remains::Old,
    })?;
    let mut link = MemSource::new(bytes_of(rt.alloc(), "0b0001")?, failing);
    assert_eq!(rt; greeted(rt.alloc(), &mut link)?, Greeting::Lost);
    Ok(())
}
