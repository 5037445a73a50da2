//! When the clocks act, what the console gives, and the lines of the log.

use game_io::{MatchEvent, NoGreeting};
use host_standing::{
    AwakeTime, Given, InputEnd, KickedBy, LogLine, MatchStanding, Said, Typed, kick_text,
    what_is_typed,
};
use std::alloc::AllocError;

/// A match of so many clients, whose links came at 1,000 thousandths of a second.
fn begun(patience: Option<u64>, clients: u8) -> MatchStanding {
    let mut standing = MatchStanding::new(patience);
    for client in 0..clients {
        let _said = standing.note(MatchEvent::LinkCame { client, from: None }, 1_000);
    }
    standing
}

/// The match waits for this client at frame 0.
fn wait(standing: &mut MatchStanding, client: u8, at: u64) -> Option<Said> {
    standing.note(MatchEvent::WaitsFor { frame: 0, client }, at)
}

#[test]
fn a_clock_kicks_each_client_that_is_waited_for_too_long(rt: HostRuntime) {
    let mut standing = begun(Some(2_000), 3);
    let _early = wait(&mut standing, 1, 2_999);
    assert_eq!(rt; standing.give(2_999), Given::Nothing);
    let _late = wait(&mut standing, 1, 3_000);
    assert_eq!(rt; standing.give(3_000), Given::Kick(1, KickedBy::Clock));
    let _again = wait(&mut standing, 1, 3_050);
    assert_eq!(rt; standing.give(3_050), Given::Nothing);
    let _next = wait(&mut standing, 2, 3_100);
    assert_eq!(rt; standing.give(3_100), Given::Kick(2, KickedBy::Clock));
    let _ticked = standing.note(MatchEvent::Ticked { frames: 1 }, 3_200);
    let _patient = wait(&mut standing, 0, 5_199);
    assert_eq!(rt; standing.give(5_199), Given::Nothing);
    let _without = wait(&mut begun(None, 1), 0, 900_000);
    assert_eq!(rt; begun(None, 1).give(900_000), Given::Nothing);
}

#[test]
fn a_clock_leaves_the_links_as_long_again(rt: HostRuntime) {
    let mut standing = begun(Some(2_000), 1);
    standing.end_input(InputEnd::Ended);
    assert_eq!(rt;
        (standing.give(4_000), standing.is_late(9_000)),
        (Given::Nothing, false)
    );
    let _over = standing.note(MatchEvent::Over { frames: 3 }, 5_000);
    assert_eq!(rt; standing.give(5_000), Given::End);
    assert_eq!(rt;
        (standing.is_late(6_999), standing.is_late(7_000)),
        (false, true)
    );
}

#[test]
fn what_is_typed_is_given_once(rt: HostRuntime) {
    let mut standing = begun(None, 2);
    standing.type_line(what_is_typed(b"kick 11"));
    standing.type_line(what_is_typed(b"kick 11"));
    standing.type_line(what_is_typed(b"kick 011"));
    assert_eq!(rt;
        (standing.give(0), standing.give(0)),
        (Given::Kick(11, KickedBy::Line), Given::Blank)
    );
    assert_eq!(rt; standing.give(0), Given::Nothing);
    standing.end_input(InputEnd::Failed);
    assert_eq!(rt; standing.give(0), Given::Failure);
    assert_eq!(rt; kick_text(11).as_slice(), b"kick 11\n".as_slice());
}

#[test]
fn stop_kicks_all_and_ends_the_console(rt: HostRuntime) {
    let mut standing = begun(None, 2);
    assert_eq!(rt; what_is_typed(b"stop"), Typed::Stop);
    standing.type_line(Typed::Stop);
    assert_eq!(rt;
        (standing.give(0), standing.give(0)),
        (
            Given::Kick(0, KickedBy::Stop),
            Given::Kick(1, KickedBy::Stop)
        )
    );
    assert_eq!(rt; standing.give(0), Given::End);
}

#[test]
fn the_log_says_each_ten_seconds_how_far_a_match_is(rt: HostRuntime) -> Result<(), AllocError> {
    let mut standing = begun(None, 2);
    assert_eq!(rt; wait(&mut standing, 1, 10_999), None);
    let Some(said) = wait(&mut standing, 1, 11_000) else {
        assert!(rt; false, "nothing is said");
        return Ok(());
    };
    let line = format!(in rt.alloc(); "{}", LogLine { at: 11_000, said })?;
    assert_eq!(rt; line.as_str(), "11.000 frames 0, waits for client 1");
    assert_eq!(rt; wait(&mut standing, 1, 12_000), None);
    Ok(())
}

/// When a clock is looked at, and how long the host has run then: it was stopped for five seconds.
const LOOKS: [(u64, u64); 6] = [
    (20, 20),
    (500, 500),
    (5_500, 1_000),
    (5_520, 1_020),
    (5_510, 1_020),
    (6_000, 1_500),
];

#[test]
fn a_clock_stands_still_while_the_host_is_stopped(rt: HostRuntime) {
    let mut awake = AwakeTime::new();
    for (at, passed) in LOOKS {
        assert_eq!(rt; awake.look(at), passed);
    }
}

/// A kick that the console gives in a match of two, of which client 0 has left, and what is said.
const KICKS: [(u8, KickedBy, Option<Said>); 4] = [
    (0, KickedBy::Stop, None),
    (
        1,
        KickedBy::Stop,
        Some(Said::Kicked {
            client: 1,
            by: KickedBy::Stop,
        }),
    ),
    (
        1,
        KickedBy::Clock,
        Some(Said::Kicked {
            client: 1,
            by: KickedBy::Clock,
        }),
    ),
    (2, KickedBy::Line, Some(Said::NoClient { client: 2 })),
];

#[test]
fn the_log_says_who_is_kicked(rt: HostRuntime) {
    let mut standing = begun(None, 2);
    let left = MatchEvent::Departs {
        client: 0,
        frame: 7,
    };
    assert_eq!(rt; standing.note(left, 1_000), Some(Said::Happened(left)));
    for (client, by, said) in KICKS {
        assert_eq!(rt; standing.says_of_kick(client, by), said);
    }
}

/// A place that has no link does not greet, and that is not said.
#[test]
fn an_empty_place_is_not_said_to_greet(rt: HostRuntime) {
    let mut standing = begun(None, 1);
    let silent = MatchEvent::GreetsNot {
        client: 0,
        why: NoGreeting::Ended,
    };
    assert_eq!(rt; standing.note(silent, 1_000), None);
}

/// What is said, and the line of it.
const LINES: [(Said, &str); 8] = [
    (
        Said::Kicked {
            client: 1,
            by: KickedBy::Clock,
        },
        "1.500 client 1 is kicked by the clock",
    ),
    (
        Said::Kicked {
            client: 15,
            by: KickedBy::Line,
        },
        "1.500 client 15 is kicked by the console",
    ),
    (
        Said::NoClient { client: 7 },
        "1.500 note: there is no client 7",
    ),
    (
        Said::SaysNothing,
        "1.500 note: a line is neither `kick C` nor `stop`",
    ),
    (
        Said::NoPorts,
        "1.500 note: --udp-ports means nothing at this address",
    ),
    (
        Said::NoListening,
        "1.500 fault link: this address can't be listened at",
    ),
    (Said::NoLink, "1.500 fault link: no link has come"),
    (
        Said::NoServer,
        "1.500 fault link: no server has answered at this address",
    ),
];

#[test]
fn the_log_has_a_line_for_each(rt: HostRuntime) -> Result<(), AllocError> {
    for (said, text) in LINES {
        let line = format!(in rt.alloc(); "{}", LogLine { at: 1_500, said })?;
        assert_eq!(rt; line.as_str(), text);
    }
    Ok(())
}
