//! Datagrams and their bytes by hand, and turns of an end over a post in memory.
use datagram_link::{
    Datagram, End, GramFault, MemPost, Offered, Post, Receiver, Turn, TurnFault, read_datagram,
    write_datagram,
};
use std::alloc::Global;
use std::test::Fail;

/// The fields of a datagram as words.
fn shown(alloc: Global, read: &Result<Datagram, GramFault>) -> Result<String, Fail> {
    match read {
        Err(fault) => Ok(format!(in alloc; "{fault:?}")?),
        Ok(Datagram::Data { number, payload }) => {
            Ok(format!(in alloc; "data {number} {:?}", payload.as_slice())?)
        }
        Ok(Datagram::Ack { next }) => Ok(format!(in alloc; "ack {next}")?),
        Ok(Datagram::Call) => Ok(format!(in alloc; "call")?),
        Ok(Datagram::Here { port }) => Ok(format!(in alloc; "here {port}")?),
    }
}

/// Bytes, and the datagram that they are or their fault.
static GRAMS: [(&[u8], &str); 24] = [
    (b"", "Short"),
    (b"\x00", "BadTag"),
    (b"\x05\x01", "BadTag"),
    (b"\x01", "Short"),
    (b"\x01\x07\x00\x00", "Short"),
    (b"\x01\x07\x00\x00\x00\x01", "Short"),
    (b"\x01\x07\x00\x00\x00\x00\x00", "BadLength"),
    (b"\x01\x07\x00\x00\x00\x00\x00a", "BadLength"),
    (b"\x01\x07\x00\x00\x00\x03\x01", "BadLength"),
    (b"\x01\x07\x00\x00\x00\x02\x01", "Short"),
    (b"\x01\x07\x00\x00\x00\x02\x00a", "Short"),
    (b"\x01\x07\x01\x00\x00\x01\x00a", "data 263 [97]"),
    (
        b"\x01\xff\xff\xff\xff\x02\x00ab",
        "data 4294967295 [97, 98]",
    ),
    (b"\x01\x07\x00\x00\x00\x01\x00ab", "TrailingBytes"),
    (b"\x02", "Short"),
    (b"\x02\x01\x02\x00", "Short"),
    (b"\x02\x01\x02\x00\x00", "ack 513"),
    (b"\x02\x01\x02\x00\x00\x00", "TrailingBytes"),
    (b"\x03", "call"),
    (b"\x03\x03", "TrailingBytes"),
    (b"\x04", "Short"),
    (b"\x04\x01", "Short"),
    (b"\x04\x01\x02", "here 513"),
    (b"\x04\x01\x02\x03", "TrailingBytes"),
];

#[test]
fn bytes_are_read_and_written(rt: HostRuntime) -> Result<(), Fail> {
    let alloc = rt.alloc();
    for (bytes, want) in GRAMS.iter() {
        let read = read_datagram(alloc, bytes);
        assert_eq!(rt; shown(alloc, &read)?.as_str(), *want);
        if let Ok(datagram) = read {
            let written = write_again(alloc, &datagram)?;
            assert_eq!(rt; written.as_slice(), *bytes);
        }
    }
    Ok(())
}

/// The bytes of a datagram whose payload, if it has one, has few bytes.
fn write_again(alloc: Global, datagram: &Datagram) -> Result<Vec<u8>, Fail> {
    match datagram {
        Datagram::Data { payload, .. } if payload.len() < 1 || payload.len() > 258 => {
            Ok(Vec::new(alloc))
        }
        _ => Ok(write_datagram(alloc, datagram)?),
    }
}

#[test]
fn the_longest_payload_is_read(rt: HostRuntime) -> Result<(), Fail> {
    let alloc = rt.alloc();
    let mut bytes = Vec::new(alloc);
    bytes.extend_from_slice(b"\x01\x00\x00\x00\x00\x02\x01")?;
    bytes.extend_from_slice(&[7; 258])?;
    let length = match read_datagram(alloc, &bytes) {
        Ok(Datagram::Data { payload, .. }) => payload.len(),
        _ => 0,
    };
    assert_eq!(rt; length, 258);
    Ok(())
}

/// What an end has sent at a post, one datagram after another.
fn sent_bytes(alloc: Global, post: &MemPost) -> Result<Vec<u8>, Fail> {
    let mut bytes = Vec::new(alloc);
    for gram in post.sent() {
        bytes.extend_from_slice(gram.as_slice())?;
    }
    Ok(bytes)
}

/// The payloads that a receiver has ready, one after another.
fn popped(alloc: Global, receiver: &mut Receiver) -> Result<Vec<u8>, Fail> {
    let mut bytes = Vec::new(alloc);
    for _ in 0..3 {
        if let Some(payload) = receiver.pop() {
            bytes.extend_from_slice(payload.as_slice())?;
        }
    }
    Ok(bytes)
}

/// The datagrams that come, and the turn that each makes.
static TURNS: [(&[u8], Result<Turn, TurnFault>); 8] = [
    (b"\x01\x01\x00\x00\x00\x01\x00b", Ok(Turn::Took)),
    (
        b"\x01\x00\x00\x00\x00\x00\x00",
        Ok(Turn::Refused(GramFault::BadLength)),
    ),
    (b"\x01\x00\x00\x00\x00\x01\x00a", Ok(Turn::Took)),
    (b"\x01\x00\x00\x00\x00\x01\x00a", Ok(Turn::Took)),
    (b"\x03", Ok(Turn::Took)),
    (b"\x02\x01\x00\x00\x00", Ok(Turn::Took)),
    (b"", Ok(Turn::Refused(GramFault::Short))),
    (b"\x02\x03\x00\x00\x00", Ok(Turn::Took)),
];

#[test]
fn an_end_takes_turns(rt: HostRuntime) -> Result<(), Fail> {
    let alloc = rt.alloc();
    let mut post = MemPost::new(alloc, Vec::new(alloc));
    let mut end = End::create(alloc)?;
    assert_eq!(rt; end.sender.offer(alloc, b"x")?, Offered::Taken(0));
    assert_eq!(rt; end.sender.offer(alloc, b"yz")?, Offered::Taken(1));
    for (gram, turn) in TURNS.iter() {
        post.add(Vec::from_slice(alloc, gram)?)?;
        assert_eq!(rt; end.turn(alloc, &mut post), *turn);
    }
    assert_eq!(rt; end.turn(alloc, &mut post), Ok(Turn::Quiet));
    let want =
        b"\x02\x00\x00\x00\x00\x02\x02\x00\x00\x00\x02\x02\x00\x00\x00\x01\x01\x00\x00\x00\x02\x00yz";
    assert_eq!(rt; sent_bytes(alloc, &post)?.as_slice(), want.as_slice());
    assert_eq!(rt; (end.sender.offered(), end.sender.acknowledged()), (2, 1));
    assert_eq!(rt;
        popped(alloc, &mut end.receiver)?.as_slice(),
        b"ab".as_slice()
    );
    assert_eq!(rt; end.receiver.next(), 2);
    Ok(())
}

/// The calls of a post that fail, the turns until the third, and how many datagrams were sent then.
static FAILURES: [(&[u32], [Result<Turn, TurnFault>; 3], usize); 4] = [
    (
        &[0],
        [Err(TurnFault::Failed), Ok(Turn::Took), Ok(Turn::Quiet)],
        3,
    ),
    (
        &[1],
        [Err(TurnFault::Failed), Ok(Turn::Quiet), Ok(Turn::Quiet)],
        4,
    ),
    (
        &[2],
        [Ok(Turn::Took), Err(TurnFault::Failed), Ok(Turn::Quiet)],
        3,
    ),
    (
        &[4],
        [Ok(Turn::Took), Err(TurnFault::Failed), Ok(Turn::Quiet)],
        4,
    ),
];

#[test]
fn a_post_fails(rt: HostRuntime) -> Result<(), Fail> {
    let alloc = rt.alloc();
    for (failing, turns, sent) in FAILURES.iter() {
        let mut post = MemPost::new(alloc, Vec::from_slice(alloc, failing)?);
        let mut end = End::create(alloc)?;
        end.sender.offer(alloc, b"x")?;
        end.sender.offer(alloc, b"y")?;
        post.add(Vec::from_slice(alloc, b"\x01\x00\x00\x00\x00\x01\x00a")?)?;
        for turn in turns.iter() {
            assert_eq!(rt; end.turn(alloc, &mut post), *turn);
        }
        assert_eq!(rt;
            (post.sent().len(), post.faults(), end.receiver.next()),
            (*sent, 1, 1)
        );
    }
    Ok(())
}
