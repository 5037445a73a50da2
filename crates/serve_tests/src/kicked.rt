//! A client that plays while the console kicks it.
use crate::serving::{Outcome, serve, two_links};
use match_serve::LinkEnd;
use std::alloc::{AllocError, Global};
use std::sync::Wait;
use std::test::Fail;
use std::thread::Threads;

/// The bytes of a link whose client greets and plays the frames 0 to 4.
const FIVE_FRAMES: &[u8] =
    b"\x0b\x00\x01\x02\x00\xdf\xb7\x01\x86\x4c\xbd\x63\xaf\x06\x00\x02\x00\x00\x00\x00\x00\x06\x00\x02\x01\x00\x00\x00\x00\x06\x00\x02\x02\x00\x00\x00\x00\x06\x00\x02\x03\x00\x00\x00\x00\x06\x00\x02\x04\x00\x00\x00\x00";

/// Such a link, whose client then says farewell.
const FIVE_FRAMES_AND_BYE: &[u8] =
    b"\x0b\x00\x01\x02\x00\xdf\xb7\x01\x86\x4c\xbd\x63\xaf\x06\x00\x02\x00\x00\x00\x00\x00\x06\x00\x02\x01\x00\x00\x00\x00\x06\x00\x02\x02\x00\x00\x00\x00\x06\x00\x02\x03\x00\x00\x00\x00\x06\x00\x02\x04\x00\x00\x00\x00\x01\x00\x04";

/// True of a packet to a client that tells a play or the departure of client 1.
fn is_of_client_1(packet: &[u8]) -> bool {
    packet.len() > 3 && (packet[2] == 0x13 || packet[2] == 0x14) && packet[3] == 1
}

/// The packets among these that tell the plays and the departure of client 1.
fn told_of_client_1(alloc: Global, written: &[u8]) -> Result<Vec<u8>, AllocError> {
    let mut told = Vec::new(alloc);
    let mut rest = written;
    for _packet in 0..written.len() {
        let Some(size) = rest.first() else {
            break;
        };
        let size = usize::from(*size) + 2;
        if rest.len() < size {
            break;
        }
        let (packet, after) = rest.split_at(size);
        if is_of_client_1(packet) {
            told.extend_from_slice(packet)?;
        }
        rest = after;
    }
    Ok(told)
}

/// The packets that tell so many plays of client 1, each without orders, and then its departure. It
/// has five plays at the most.
fn column_packets(plays: u32) -> &'static [u8] {
    match plays {
        0 => b"\x06\x00\x14\x01\x00\x00\x00\x00",
        1 => b"\x07\x00\x13\x01\x00\x00\x00\x00\x00\x06\x00\x14\x01\x01\x00\x00\x00",
        2 =>
            b"\x07\x00\x13\x01\x00\x00\x00\x00\x00\x07\x00\x13\x01\x01\x00\x00\x00\x00\x06\x00\x14\x01\x02\x00\x00\x00",
        3 =>
            b"\x07\x00\x13\x01\x00\x00\x00\x00\x00\x07\x00\x13\x01\x01\x00\x00\x00\x00\x07\x00\x13\x01\x02\x00\x00\x00\x00\x06\x00\x14\x01\x03\x00\x00\x00",
        4 =>
            b"\x07\x00\x13\x01\x00\x00\x00\x00\x00\x07\x00\x13\x01\x01\x00\x00\x00\x00\x07\x00\x13\x01\x02\x00\x00\x00\x00\x07\x00\x13\x01\x03\x00\x00\x00\x00\x06\x00\x14\x01\x04\x00\x00\x00",
        _ =>
            b"\x07\x00\x13\x01\x00\x00\x00\x00\x00\x07\x00\x13\x01\x01\x00\x00\x00\x00\x07\x00\x13\x01\x02\x00\x00\x00\x00\x07\x00\x13\x01\x03\x00\x00\x00\x00\x07\x00\x13\x01\x04\x00\x00\x00\x00\x06\x00\x14\x01\x05\x00\x00\x00",
    }
}

/// True where a link may have ended so, whose client was kicked after so many plays, or before that
/// ended with all five.
fn may_end(end: Option<LinkEnd>, plays: u32) -> bool {
    match end {
        Some(LinkEnd::Kicked(at)) => at == plays && plays <= 5,
        Some(LinkEnd::Ended) => plays == 5,
        _ => false,
    }
}

/// How often the match is played. Each time the kick may come at another frame.
const MATCHES: u32 = 16;

/// Serves such a match. What each of both links told of client 1 as well.
fn kick_a_client<R: Threads + Wait + Sync>(
    rt: &R,
    alloc: Global,
) -> Result<(Outcome, Vec<u8>, Vec<u8>), Fail> {
    let puts = Vec::new(alloc);
    let mut net = two_links(alloc, FIVE_FRAMES_AND_BYE, FIVE_FRAMES, puts)?;
    let served = serve(rt, alloc, &mut net, b"kick 1\n")?;
    let first = told_of_client_1(alloc, net.written(0).unwrap_or(b""))?;
    let second = told_of_client_1(alloc, net.written(1).unwrap_or(b""))?;
    Ok((served, first, second))
}

#[test]
fn a_client_that_is_kicked(rt: HostRuntime) -> Result<(), Fail> {
    for _match in 0..MATCHES {
        let (served, told_first, told_second) = kick_a_client(&rt, rt.alloc())?;
        let (first, second) = served.seen;
        let ends = served.ends.as_slice();
        assert_eq!(rt; (first.left, second.left), (true, true));
        assert_eq!(rt;
            (first.plays, ends.get(0).copied()),
            (5, Some(LinkEnd::Ended))
        );
        assert!(rt; may_end(ends.get(1).copied(), second.plays), "{second:?}");
        let packets = column_packets(second.plays);
        assert_eq!(rt;
            (told_first.as_slice(), told_second.as_slice()),
            (packets, packets)
        );
    }
    Ok(())
}
