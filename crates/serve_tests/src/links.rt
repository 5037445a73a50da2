//! How links of a match end, by their bytes.
use crate::serving::{Outcome, serve, two_links};
use match_net::ReadCause;
use match_serve::LinkEnd;
use std::alloc::Global;
use std::sync::Wait;
use std::test::Fail;
use std::thread::Threads;

/// The bytes of a link whose client greets, plays frame 0 and says farewell.
const ONE_FRAME: &[u8] =
    b"\x0b\x00\x01\x02\x00\xdf\xb7\x01\x86\x4c\xbd\x63\xaf\x06\x00\x02\x00\x00\x00\x00\x00\x01\x00\x04";

/// The bytes of the first link, how it ends and how many of them are taken, and the hash of the
/// world after the match. The least world hashes to twice its steps, and one more where client 0
/// played last.
const LINKS: [(&[u8], LinkEnd, u64, u64); 4] = [
    // two frames and the farewell
    (
        b"\x0b\x00\x01\x02\x00\xdf\xb7\x01\x86\x4c\xbd\x63\xaf\x06\x00\x02\x00\x00\x00\x00\x00\x06\x00\x02\x01\x00\x00\x00\x00\x01\x00\x04",
        LinkEnd::Ended,
        32,
        5,
    ),
    // a frame that is ahead
    (
        b"\x0b\x00\x01\x02\x00\xdf\xb7\x01\x86\x4c\xbd\x63\xaf\x06\x00\x02\x01\x00\x00\x00\x00",
        LinkEnd::Refused(ReadCause::Ahead),
        21,
        2,
    ),
    // another version
    (
        b"\x0b\x00\x01\x04\x00\x00\x00\x00\x00\x00\x00\x00\x00",
        LinkEnd::Refused(ReadCause::Version),
        13,
        2,
    ),
    // no bytes
    (b"", LinkEnd::Ended, 0, 2),
];

/// Lines of a console, none of which kicks.
const LINES: &[u8] = b"kick 2\nkick 00\n kick 0\n";

/// Serves a match whose first link has these bytes.
fn serve_link<R: Threads + Wait + Sync>(
    rt: &R,
    alloc: Global,
    bytes: &[u8],
) -> Result<Outcome, Fail> {
    let mut net = two_links(alloc, bytes, ONE_FRAME, Vec::new(alloc))?;
    serve(rt, alloc, &mut net, LINES)
}

#[test]
fn links(rt: HostRuntime) -> Result<(), Fail> {
    for (bytes, end, taken, hash) in LINKS {
        let served = serve_link(&rt, rt.alloc(), bytes)?;
        assert_eq!(rt;
            (served.ends.as_slice().get(0).copied(), served.hash),
            (Some(end), hash)
        );
        assert_eq!(rt; served.taken.as_slice(), [taken, 24].as_slice());
    }
    Ok(())
}
