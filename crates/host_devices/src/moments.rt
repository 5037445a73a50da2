//! Times, as the devices count them.

use std::thread;
use std::time::{Clock, Duration, Instant};

/// So many thousandths of a second lie between two looks of a device that waits.
const LOOK_MILLIS: u64 = 20;

/// The greatest time that is told: longer than any match.
const MAX_MILLIS: u128 = 1 << 50;

/// The time since this instant, in thousandths of a second. It is 0 where the clock can't be read.
pub(crate) fn millis_since<R: Clock>(rt: &R, begun: Instant) -> u64 {
    match begun.elapsed(rt) {
        Ok(time) => time.as_millis().min(MAX_MILLIS) as u64,
        Err(_) => 0,
    }
}

/// Sleeps until the next look.
pub(crate) fn rest<R: Clock>(rt: &R) {
    thread::sleep(rt, Duration::from_millis(LOOK_MILLIS));
}
