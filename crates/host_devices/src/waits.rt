//! What ends the waiting for links.
ghost use Rattle.std.specs.Prelude.{◌≡◌};

use crate::host_desk::HostDesk;
use crate::moments::rest;
use game_io::Net;
use std::sync::Wait;
use std::time::Clock;

/// The net waits for the next link at most so many seconds, if a number is given.
pub fn limit_lobby<N: Net>(net: &mut N, lobby: Option<u32>)
    ensures { N.state net.new ≡ N.state net.old }
{
    if let Some(seconds) = lobby {
        net.limit_wait(seconds);
    }
}

/// Lets all links fail once the match is over and the links have had as long as its clock leaves
/// them. It is a thread's own work, and is cut off where the process ends first.
pub fn cut_late_links<R: Wait + Clock>(rt: &R, desk: &HostDesk) {
    for _look in rt.forever() {
        if desk.is_late(rt) {
            desk.cut_links();
            return;
        }
        rest(rt);
    }
    unreachable!()
}
