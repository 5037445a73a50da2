//! Files that two programs written apart agree on, and a small file with a byte changed or cut off.
use game_orders::{Entry, Frame, Order, Orders};
use replay_file::{PartKind, Replay, ReplayFault, VERSION, read_replay, write_replay};
use std::alloc::{AllocError, Global};
use std::process::Abort;
use std::test::Fail;

/// The rules number of a match without rules and without a map.
const BARE: u64 = 0xaf63_bd4c_8601_b7df;

/// A version, what follows the rules number in hexadecimal digits, the cause of the refusal (none
/// where the file is accepted) and its place.
type Row = (u8, &'static str, &'static str, u64);

/// Files that are accepted.
static ACCEPTED: [Row; 21] = [
    (1, "4c0c23670201010102010000000100000001010000", "", 0),
    (
        1,
        "026e54c10802b1465a818072ebf0010100010001000100010001000100010001010001000100010001000100\
        010001000101000100010001000100010001000100020cc9b477c5ea817c00",
        "",
        0,
    ),
    (
        1,
        "6d6db43b08010102060500000004ffffffff0100010001010603000000010001000100010201030000000405\
        01010000000007010000",
        "",
        0,
    ),
    (
        1,
        "f3baaacc0802ffadf3237536c1ba0101010202000000ffffffff010101060000000001010701000000000100\
        010101ffffffff020601010206020000000400000000010201030000000501010532fb9b9f05000100027679\
        afe76d966d4500",
        "",
        0,
    ),
    (1, "497d153b0102b310d3f21321386f00", "", 0),
    (1, "769cc06501010100028528a09d8dcfd89e00", "", 0),
    (1, "9d15de0a010101000259e8e114a6fda02700", "", 0),
    (1, "f71b498801023df25a71e2363d8400", "", 0),
    (
        1,
        "681df17f030101020402000000050300000008000100010000",
        "",
        0,
    ),
    (
        2,
        "936ac6150802645d4f78b6e3e9e001000100010001000100000100010000",
        "",
        0,
    ),
    (2, "79190db9010236059a060665d59c01010000", "", 0),
    (
        1,
        "2852edd802010101040300000001000101020502000000080004ffffffff01010203000000030000000002ca\
        3069291d87331c010100010000",
        "",
        0,
    ),
    (2, "9ed4126d0802fd7eb76305957a8700", "", 0),
    (1, "bcebca7d0200", "", 0),
    (1, "7f8994270800", "", 0),
    (1, "010000000101010002666e2b0b3232288100", "", 0),
    (1, "010000000101010002666e2b0b3232288100", "", 0),
    (1, "010000000101010002666e2b0b3232288100", "", 0),
    (2, "010000000101010002c52a8cd1072f94f700", "", 0),
    (1, "010000000101010002676e2b0b3232288100", "", 0),
    (2, "010000000101010002c42a8cd1072f94f700", "", 0),
];

/// Files that are refused.
static REFUSED: [Row; 20] = [
    (1, "8a2b1a5603", "Torn", 19),
    (
        1,
        "e65426950302107582c015539d170101000103060000000001020000000007010605000000010105199b0000\
        010102010100000003070103030000000503000103050100000004000309a29a560606010400000000010107\
        049001000000",
        "BadRecord",
        69,
    ),
    (
        1,
        "7e6e82060202c0c352451a5c9beb01010002000101000100020abc81b641c3bd28010100010002ed0dc5357e\
        ff25fc00",
        "BadRecord",
        28,
    ),
    (1, "9d9ee16d02020e1d379d4ecade21001414", "TrailingBytes", 29),
    (
        1,
        "39dcecc90801000100000100010001000100010001000100000100010001000100010001000100000100015d\
        5d",
        "BadRecord",
        49,
    ),
    (
        1,
        "04c3095102010100010001010001000101000100010100010001010001000101000100010100010001010001\
        00",
        "Torn",
        59,
    ),
    (
        1,
        "4c56747b0102504c9c4ca01a90ae01010101e01717c70502010101a01a90ae01010101e01717c70502010101\
        0001010000",
        "BadRecord",
        39,
    ),
    (1, "8d17c79201025ebccce3e23ede93007e", "TrailingBytes", 29),
    (
        1,
        "008ee9a99f02010100010002b0ce66660dccbcfc00",
        "BadRecord",
        18,
    ),
    (1, "10684c86010101060500000000", "Torn", 19),
    (
        1,
        "112cd37f01010102060100010000030500000007050000",
        "BadRecord",
        19,
    ),
    (1, "8b28366c0201", "Torn", 19),
    (
        2,
        "3cd373a908023b7db054194626d7010100010001000100010001000100010002642a4d7b444dc73201010001\
        0001000100010001000100010002996c9261cf8d0f0501010001",
        "Torn",
        80,
    ),
    (1, "010000000901010002666e2b0b3232288100", "BadRecord", 18),
    (1, "010000000101010002666e2b0b323228", "Torn", 22),
    (2, "010000000101010002c52a8cd1072f94", "Torn", 22),
    (
        1,
        "010000000101010002666e2b0b323228810000",
        "TrailingBytes",
        32,
    ),
    (
        2,
        "010000000101010002c52a8cd1072f94f70000",
        "TrailingBytes",
        32,
    ),
    (1, "010000000101010002666e2b0b32322881", "Torn", 31),
    (2, "010000000101010002c52a8cd1072f94f7", "Torn", 31),
];

/// Whole files with a fault in the header: the bytes, the caller's rules number, cause and place.
static HEADERS: [(&str, u64, &str, u64); 9] = [
    ("", BARE, "BadMagic", 0),
    ("4c53", BARE, "BadMagic", 0),
    ("4c53f30100", BARE, "BadMagic", 0),
    ("4c010100010000", BARE, "BadMagic", 0),
    (
        "4c535250000100dfb701864cbd63afabfc8c9b0101010000",
        BARE,
        "BadVersion",
        4,
    ),
    (
        "4c5352500103fa67f9b6d8a72f2dd3454c280100",
        0x2d2f_a7d8_b6f9_67fa,
        "BadVersion",
        4,
    ),
    (
        "4c5352500100fa67f9b6d8a72f2d11",
        0x2d2f_a7d8_b6f9_67fa,
        "Torn",
        6,
    ),
    (
        "4c5352500100df00b701864cbd63afbbbc6c650100",
        BARE,
        "OtherRules",
        6,
    ),
    (
        "4c5352500100fa67f9b6d8a72f2d616aa83d02a83d020287a6b15468cccc5600",
        0x2d2f_a7d8_b6f9_67fa,
        "BadRecord",
        19,
    ),
];

/// A file of one client: a frame without orders, a mark and the end.
static SMALL: &str = "4c5352500200dfb701864cbd63af010000000101010002c52a8cd1072f94f700";

/// From how many bytes of [`SMALL`] on, and below how many, a prefix of it has which cause and
/// place.
static CUTS: [(usize, usize, &str, u64); 6] = [
    (0, 4, "BadMagic", 0),
    (4, 6, "Torn", 4),
    (6, 19, "Torn", 6),
    (19, 22, "Torn", 19),
    (22, 31, "Torn", 22),
    (31, 32, "Torn", 31),
];

/// A place of [`SMALL`], the byte put there, and the cause and the place then.
static CHANGES: [(usize, u8, &str, u64); 26] = [
    // another first byte
    (0, 0x4d, "BadMagic", 0),
    (3, 0x51, "BadMagic", 0),
    (4, 0x00, "BadVersion", 4),
    (4, 0x03, "BadVersion", 4),
    (5, 0x01, "BadVersion", 4),
    (6, 0xde, "OtherRules", 6),
    (13, 0xae, "OtherRules", 6),
    // another seed
    (14, 0x02, "", 0),
    // no client
    (18, 0x00, "BadRecord", 18),
    // seventeen clients
    (18, 0x11, "BadRecord", 18),
    // two clients, of whom the second has the entry 2
    (18, 0x02, "BadRecord", 19),
    // the end
    (19, 0x00, "TrailingBytes", 20),
    // a mark, and then the tag 2f
    (19, 0x02, "BadRecord", 28),
    // an unknown tag
    (19, 0x03, "BadRecord", 19),
    // a frame without a play
    (20, 0x00, "BadRecord", 19),
    // an unknown entry
    (20, 0x02, "BadRecord", 19),
    // an Attack, and then no part
    (21, 0x01, "Torn", 32),
    // seventeen orders
    (21, 0x11, "BadRecord", 19),
    // the end
    (22, 0x00, "TrailingBytes", 23),
    // a frame with the entry c5
    (22, 0x01, "BadRecord", 22),
    // an unknown tag
    (22, 0x03, "BadRecord", 22),
    // another hash
    (23, 0x00, "", 0),
    // another hash
    (30, 0x00, "", 0),
    // a frame without an entry
    (31, 0x01, "Torn", 31),
    // a mark directly after a mark
    (31, 0x02, "BadRecord", 31),
    // an unknown tag
    (31, 0x03, "BadRecord", 31),
];

/// The number of a hexadecimal digit.
fn digit(byte: u8) -> u8 {
    match byte {
        b'0'..=b'9' => byte - b'0',
        b'a'..=b'f' => byte - b'a' + 10,
        _ => 0,
    }
}

/// Appends the bytes that pairs of hexadecimal digits write.
fn append_hex(out: &mut Vec<u8>, hex: &str) -> Result<(), AllocError> {
    let mut high: Option<u8> = None;
    for byte in hex.as_bytes() {
        match high {
            None => high = Some(digit(*byte)),
            Some(first) => {
                out.push(first.wrapping_mul(16) | digit(*byte))?;
                high = None;
            }
        }
    }
    Ok(())
}

/// The file of a row.
fn file_of(alloc: Global, version: u8, rest: &str) -> Result<Vec<u8>, AllocError> {
    let mut bytes = Vec::new(alloc);
    bytes.extend_from_slice(b"LSRP")?;
    bytes.push(version)?;
    append_hex(&mut bytes, "00dfb701864cbd63af")?;
    append_hex(&mut bytes, rest)?;
    Ok(bytes)
}

/// Asserts that the bytes are refused with this cause and place, or accepted where there is none,
/// and that what was read in the version that is written is written back.
fn assert_read(
    rt: &impl Abort,
    alloc: Global,
    bytes: &[u8],
    here: u64,
    cause: &str,
    place: u64,
) -> Result<(), Fail> {
    match read_replay(alloc, bytes, here) {
        Ok(replay) => {
            assert_eq!(rt; cause, "");
            if replay.version == VERSION {
                let written = write_replay(alloc, &replay)?;
                assert_eq!(rt; written.as_slice(), bytes);
            }
        }
        Err(ReplayFault::NoMemory) => return Err(AllocError.into()),
        Err(fault) => {
            assert_eq!(rt; fault.cause(), cause);
            assert_eq!(rt; fault.place(), Some(place));
        }
    }
    Ok(())
}

#[test]
fn accepted_files(rt: HostRuntime) -> Result<(), Fail> {
    let alloc = rt.alloc();
    for (version, rest, cause, place) in ACCEPTED.iter() {
        let bytes = file_of(alloc, *version, rest)?;
        assert_read(&rt, alloc, &bytes, BARE, cause, *place)?;
    }
    Ok(())
}

#[test]
fn refused_files(rt: HostRuntime) -> Result<(), Fail> {
    let alloc = rt.alloc();
    for (version, rest, cause, place) in REFUSED.iter() {
        let bytes = file_of(alloc, *version, rest)?;
        assert_read(&rt, alloc, &bytes, BARE, cause, *place)?;
    }
    for (hex, here, cause, place) in HEADERS.iter() {
        let mut bytes = Vec::new(alloc);
        append_hex(&mut bytes, hex)?;
        assert_read(&rt, alloc, &bytes, *here, cause, *place)?;
    }
    Ok(())
}

#[test]
fn a_small_file_changed_and_cut(rt: HostRuntime) -> Result<(), Fail> {
    let alloc = rt.alloc();
    let mut whole = Vec::new(alloc);
    append_hex(&mut whole, SMALL)?;
    for (place, byte, cause, at) in CHANGES.iter() {
        let mut bytes = whole.clone()?;
        if let Some(there) = bytes.get_mut(*place) {
            *there = *byte;
        }
        assert_read(&rt, alloc, &bytes, BARE, cause, *at)?;
    }
    for (from, to, cause, at) in CUTS.iter() {
        for length in *from..*to {
            let Some(bytes) = whole.get(..length) else {
                continue;
            };
            assert_read(&rt, alloc, bytes, BARE, cause, *at)?;
        }
    }
    Ok(())
}

/// In the first version the frame after 65,536 is refused at its own place, after 19 bytes of the
/// header and three of each frame.
#[test]
fn most_frames_of_the_first_version(rt: HostRuntime) -> Result<(), Fail> {
    let alloc = rt.alloc();
    let mut bytes = file_of(alloc, 1, "0700000001")?;
    for _ in 0..65_537 {
        bytes.extend_from_slice(&[1, 1, 0])?;
    }
    bytes.push(0)?;
    assert_read(&rt, alloc, &bytes, BARE, "BadRecord", 196_627)
}

/// Two parts pushed one after the other are gone over in order.
#[test]
fn parts_in_order(rt: HostRuntime) -> Result<(), Fail> {
    let alloc = rt.alloc();
    let mut replay = Replay::new(alloc, BARE, 7, 2);
    assert_eq!(rt;
        (replay.version, replay.rules, replay.seed, replay.clients),
        (2, BARE, 7, 2)
    );
    let mut orders = Orders::empty();
    orders.push(Order::Stop { actor: 9 });
    let mut frame = Frame::empty();
    frame.push(Entry::Play(orders));
    frame.push(Entry::Leave);
    replay.parts.push_mark(5)?;
    replay.parts.push_frame(&frame)?;
    let mut left = replay.parts.iter();
    let mut first = Frame::empty();
    assert_eq!(rt; left.next_into(&mut first), Some(PartKind::Mark(5)));
    assert_eq!(rt; left.next_into(&mut first), Some(PartKind::Frame));
    assert_eq!(rt; first.len(), 2);
    assert!(rt; first.get(1).is_some_and(|entry| *entry == Entry::Leave));
    assert_eq!(rt; left.next_into(&mut first), None);
    Ok(())
}
