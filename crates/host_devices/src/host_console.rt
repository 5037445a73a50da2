ghost use Rattle.std.specs.Prelude.{◌≡◌, ◌≤◌, length, None};

use crate::host_desk::HostDesk;
use crate::moments::rest;
use arrayvec::ArrayVec;
use base::FaultCount;
use game_io::{Failed, Source};
use host_standing::{Given, LINE_END, LINE_ROOM, MAX_CLIENTS, kick_text};
use std::sync::Wait;
use std::time::Clock;

/// The console of a host: a line for each client that was kicked, by a line that was typed, by
/// `stop`, or by the clock; and an empty line where others were typed. It waits for them. It ends
/// after the kicks of `stop`; with a clock, once every client has left; and without one where the
/// input ends.
#[derive(Drop)]
pub struct HostConsole<'a, R: Wait + Clock> {
    rt: &'a R,
    desk: &'a HostDesk,
    /// The line that is given, and how many of its bytes were.
    line: ArrayVec<u8, LINE_ROOM>,
    given: usize,
    faults: FaultCount,
}

impl<'a, R: Wait + Clock> HostConsole<'a, R> {
    /// The console of this desk, with no fault yet.
    pub fn new(rt: &'a R, desk: &'a HostDesk) -> Self {
        HostConsole {
            rt,
            desk,
            line: ArrayVec::new(),
            given: 0,
            faults: FaultCount::new(),
        }
    }
}

/// The next line of a desk, or none where it has no more; an error where the input failed.
fn next_line<R: Wait + Clock>(rt: &R, desk: &HostDesk) -> Result<ArrayVec<u8, LINE_ROOM>, Failed> {
    for _look in rt.forever() {
        let mut line = ArrayVec::new();
        match desk.give(rt) {
            Given::Kick(client, _) if client < MAX_CLIENTS => return Ok(kick_text(client)),
            Given::Kick(_, _) => {}
            Given::Blank => {
                line.push(LINE_END);
                return Ok(line);
            }
            Given::End => return Ok(line),
            Given::Failure => return Err(Failed),
            Given::Nothing => rest(rt),
        }
    }
    unreachable!()
}

/// Moves the first bytes of what is left of a line to the beginning of `into`, and answers how many.
fn give_bytes(left: &[u8], into: &mut [u8]) -> usize
    ensures { result ≤ length into.new }
{
    let count = into.len().min(left.len());
    into[..count].copy_from_slice(&left[..count]);
    count
}

impl<R: Wait + Clock> Source for HostConsole<'_, R> {
    ghost state = { λ s. record { left = None; faults = s.faults } };

    fn faults(&self) -> u64 {
        self.faults.get()
    }

    fn take(&mut self, into: &mut [u8]) -> Result<usize, Failed> {
        if self.given >= self.line.len() {
            match next_line(self.rt, self.desk) {
                Ok(line) => self.line = line,
                Err(Failed) => {
                    self.faults.raise();
                    return Err(Failed);
                }
            }
            self.given = 0;
        }
        let left = self.line.as_slice().get(self.given..).unwrap_or(&[]);
        let count = give_bytes(left, into);
        self.given = self.given.saturating_add(count);
        Ok(count)
    }
}
