//! The numbers of limits that no other test reaches: an input at such a limit would be too large,
//! or the limit is a bound of which no answer tells. Clauses name a limit and not its number, so a
//! limit that was changed is still proved.

use command_answers::MAX_REPLAY_BYTES;
use drill_words::MAX_DRILL_BYTES;
use frame_core::MAX_STEPS;
use game_io::{MAX_HOLD_TURNS, MAX_LINKS};
use game_model::{MAX_DRAWS, MAX_ORE};
use game_tick::LAST_ID;
use match_net::{MAX_LINK_BYTES, MAX_PLAY_BYTES};
use order_packets::MAX_PAYLOAD;

#[test]
fn limits_have_their_numbers(rt: HostRuntime) {
    let rows = [
        (
            "bytes of a replay",
            u64::from(MAX_REPLAY_BYTES),
            268_435_456,
        ),
        ("bytes of a drill", u64::from(MAX_DRILL_BYTES), 67_108_864),
        (
            "bytes of a client's link",
            MAX_LINK_BYTES as u64,
            67_108_864,
        ),
        (
            "bytes that a player takes",
            MAX_PLAY_BYTES as u64,
            1_073_741_824,
        ),
        ("bytes of a packet's payload", u64::from(MAX_PAYLOAD), 256),
        ("steps of a world", u64::from(MAX_STEPS), 536_870_911),
        ("words that a frame draws", MAX_DRAWS, 16_384),
        ("ore of a cell", u64::from(MAX_ORE), 90),
        (
            "the id at which building ends",
            u64::from(LAST_ID),
            4_294_967_295,
        ),
        ("links of a net", u64::from(MAX_LINKS), 16),
        ("turns of a hold", u64::from(MAX_HOLD_TURNS), 200_000_000),
    ];
    for (limit, number, want) in rows {
        assert_eq!(rt; number, want, "{limit}");
    }
}
