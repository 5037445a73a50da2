//! Pauses end, whether they let others run or sleep.

use idle_pause::{Pause, SPINS_BEFORE_SLEEP};

#[test]
fn a_pause_ends(rt: HostRuntime) {
    let mut pause = Pause::new();
    for _look in 0..SPINS_BEFORE_SLEEP + 3 {
        pause.rest(&rt);
    }
    pause.end();
    pause.rest(&rt);
}
