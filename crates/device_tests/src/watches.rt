//! What a watch in memory keeps.

use game_io::{Gate, MatchEvent, MemWatch, NoGate, NoGreeting, Watch, WatchedGate};
use std::test::Fail;

#[test]
fn a_watch_in_memory_keeps_the_first_events(rt: HostRuntime) -> Result<(), Fail> {
    let gate = WatchedGate::new(MemWatch::new(rt.alloc(), 2)?);
    let first = MatchEvent::Departs {
        client: 1,
        frame: 7,
    };
    let second = MatchEvent::GreetsNot {
        client: 0,
        why: NoGreeting::OtherRules,
    };
    gate.before(0, 0);
    gate.watch().log(first);
    // That the match waits is not kept.
    gate.watch().log(MatchEvent::WaitsFor {
        frame: 7,
        client: 0,
    });
    gate.watch().log(second);
    gate.watch().log(MatchEvent::Over { frames: 8 });
    gate.after(0, 0);
    let logged = gate.watch().logged(rt.alloc())?;
    assert_eq!(rt; logged.as_slice(), [first, second].as_slice());
    NoGate.watch().log(first);
    Ok(())
}
