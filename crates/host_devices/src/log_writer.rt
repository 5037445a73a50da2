//! The thread that writes the log.

use crate::host_desk::HostDesk;
use crate::moments::rest;
use game_io::Net;
use std::io::Eprint;
use std::sync::Wait;
use std::time::Clock;

/// So many looks are made for the log's last lines before the host ends without them.
const LAST_LOOKS: u32 = 25;

/// Writes the lines of the log to standard error as they come. A line that can't be written is
/// dropped. It is a thread's own work and has no end: it is cut off where the process ends.
pub fn write_log<R: Eprint + Wait + Clock>(rt: &R, desk: &HostDesk) {
    for _look in rt.forever() {
        match desk.next_line(rt) {
            Some(line) => {
                let _said = eprintln!(rt; "{line}");
                desk.has_written();
            }
            None => rest(rt),
        }
    }
    unreachable!()
}

/// Ends the log: where the net has failed its last line says why. That of a player has no other line,
/// and no thread that writes it.
pub fn end_log<N: Net, R: Eprint + Wait + Clock>(rt: &R, desk: &HostDesk, net: &N, is_host: bool) {
    if net.faults() != 0 {
        desk.say_fault(rt, is_host);
    }
    if is_host {
        flush_log(rt, desk);
    } else if let Some(line) = desk.next_line(rt) {
        let _said = eprintln!(rt; "{line}");
    }
}

/// Waits until the log is written, half a second at most.
fn flush_log<R: Clock>(rt: &R, desk: &HostDesk) {
    for _look in 0..LAST_LOOKS {
        if desk.is_all_written() {
            return;
        }
        rest(rt);
    }
}
