//! The thread that reads standard input.

use crate::host_desk::HostDesk;
use crate::moments::rest;
use crate::typed_line::TypedLine;
use host_standing::{InputEnd, LINE_END, Said, Typed};
use std::io::{ErrorKind, Input, Read};
use std::sync::Wait;
use std::time::Clock;

/// The most bytes that are read at once.
const READ_BYTES: usize = 256;

/// Reads standard input to its end, once the server listens, and tells the desk what is typed there.
/// It is a thread's own work: a read may wait for ever, and is cut off where the process ends.
pub fn read_typed<R: Input + Wait + Clock>(rt: &R, desk: &HostDesk) {
    await_listening(rt, desk);
    let mut reader = rt.reader();
    let mut line = TypedLine::new();
    let mut bytes = [0u8; READ_BYTES];
    for _read in rt.forever() {
        match reader.read(&mut bytes) {
            Ok(0) => return end_typed(rt, desk, line, InputEnd::Ended),
            Ok(count) => type_bytes(rt, desk, &mut line, &bytes[..count]),
            Err(error) if error.kind() == ErrorKind::Interrupted => {}
            Err(_) => return end_typed(rt, desk, line, InputEnd::Failed),
        }
    }
    unreachable!()
}

/// Waits until the server listens: before that the input is not the console's.
fn await_listening<R: Wait + Clock>(rt: &R, desk: &HostDesk) {
    for _look in rt.forever() {
        if desk.is_listening(rt) {
            return;
        }
        rest(rt);
    }
    unreachable!()
}

/// Takes note of these bytes.
fn type_bytes<R: Wait + Clock>(rt: &R, desk: &HostDesk, line: &mut TypedLine, bytes: &[u8]) {
    for byte in bytes {
        if *byte == LINE_END {
            desk.type_line(rt, end_line(rt, desk, line));
        } else {
            line.add(*byte);
        }
    }
}

/// What a line says that has ended. Where it has bytes and says nothing, the log tells.
fn end_line<R: Wait + Clock>(rt: &R, desk: &HostDesk, line: &mut TypedLine) -> Typed {
    let is_empty = line.is_empty();
    let typed = line.end();
    if typed == Typed::Other && !is_empty {
        desk.say(rt, Said::SaysNothing);
    }
    typed
}

/// The input has ended. What has come since the last line counts as one, where it says something.
fn end_typed<R: Wait + Clock>(rt: &R, desk: &HostDesk, line: TypedLine, end: InputEnd) {
    let mut line = line;
    let typed = end_line(rt, desk, &mut line);
    if typed != Typed::Other {
        desk.type_line(rt, typed);
    }
    desk.end_input(rt, end);
}
