//! What the devices of a host share.

use crate::moments::millis_since;
use base::NoMemory;
use crossbeam_queue::ArrayQueue;
use game_io::MatchEvent;
use host_standing::{AwakeTime, Given, InputEnd, LogLine, MatchStanding, Said, Typed};
use std::alloc::{AllocError, Global};
use std::sync::atomic::{AtomicBool, AtomicU64, Ordering};
use std::sync::{Arc, Mutex, Wait};
use std::time::{Clock, Instant};

/// So many lines of the log may wait to be written. What comes then is dropped.
const LOG_ROOM: usize = 256;

/// The thousandths of a second of one second.
const SECOND_MILLIS: u64 = 1_000;

/// What the devices of a host share: how its match stands, the lines of its log, and two flags. Its
/// clock begins with it.
#[derive(Drop)]
pub struct HostDesk {
    begun: Instant,
    awake: Mutex<AwakeTime>,
    standing: Mutex<MatchStanding>,
    is_quiet: bool,
    log: ArrayQueue<LogLine>,
    /// How many lines were put into the log, and how many of these were written.
    put: AtomicU64,
    written: AtomicU64,
    stop: AtomicBool,
    cut: Arc<AtomicBool>,
}

/// One desk, which several threads have.
pub type SharedDesk = Arc<HostDesk>;

/// The same desk for four others: a watch, and the threads that read, write and cut; and the flag that
/// turns true once the links are to fail.
pub type DeskShares = (
    SharedDesk,
    SharedDesk,
    SharedDesk,
    SharedDesk,
    Arc<AtomicBool>,
);

impl HostDesk {
    /// The desk of a match that begins now. Where it is quiet nothing is logged. With `patience` a
    /// frame is waited for so many seconds, and the links once all have left. Out of memory is its
    /// one error, also where the clock can't be read.
    pub fn create<R: Clock>(
        rt: &R,
        alloc: Global,
        is_quiet: bool,
        patience: Option<u32>,
    ) -> Result<SharedDesk, NoMemory> {
        let Ok(begun) = Instant::now(rt) else {
            return Err(AllocError);
        };
        let patience = match patience {
            Some(seconds) => Some(u64::from(seconds) * SECOND_MILLIS),
            None => None,
        };
        Ok(Arc::new(
            alloc,
            HostDesk {
                begun,
                awake: Mutex::new(AwakeTime::new()),
                standing: Mutex::new(MatchStanding::new(patience)),
                is_quiet,
                log: ArrayQueue::new(alloc, LOG_ROOM)?,
                put: AtomicU64::new(0),
                written: AtomicU64::new(0),
                stop: AtomicBool::new(false),
                cut: Arc::new(alloc, AtomicBool::new(false))?,
            },
        )?)
    }

    /// The same desk, for four others, and the flag of the links. Out of memory is the one error.
    pub fn shares(desk: &SharedDesk) -> Result<DeskShares, NoMemory> {
        Ok((
            Arc::try_clone(desk)?,
            Arc::try_clone(desk)?,
            Arc::try_clone(desk)?,
            Arc::try_clone(desk)?,
            Arc::try_clone(&desk.cut)?,
        ))
    }

    /// True once `stop` was typed: no more links are to be waited for.
    pub fn stop(&self) -> &AtomicBool {
        &self.stop
    }

    /// The links are to fail from now on.
    pub(crate) fn cut_links(&self) {
        self.cut.store(true, Ordering::SeqCst);
    }

    /// For how long the host ran since the desk began, by which the clocks of its match go.
    fn awake_for<R: Wait + Clock>(&self, rt: &R) -> u64 {
        let at = millis_since(rt, self.begun);
        self.awake.lock(rt).look(at)
    }

    /// Takes note of what happened just now, and of what the log says of it.
    pub(crate) fn note<R: Wait + Clock>(&self, rt: &R, event: MatchEvent) {
        let at = self.awake_for(rt);
        let said = self.standing.lock(rt).note(event, at);
        if let Some(said) = said {
            self.say(rt, said);
        }
    }

    /// Puts a line into the log, where it has room and one is wanted.
    pub(crate) fn say<R: Wait + Clock>(&self, rt: &R, said: Said) {
        let at = millis_since(rt, self.begun);
        if !self.is_quiet && self.log.push(rt, LogLine { at, said }).is_ok() {
            self.put.fetch_add(1, Ordering::SeqCst);
        }
    }

    /// Says in the log that the ports which are given for links over UDP mean nothing.
    pub fn say_no_ports<R: Wait + Clock>(&self, rt: &R) {
        self.say(rt, Said::NoPorts);
    }

    /// Says in the log why the net has failed: that of a host, or of a player.
    pub(crate) fn say_fault<R: Wait + Clock>(&self, rt: &R, is_host: bool) {
        let said = if is_host {
            self.standing.lock(rt).says_of_fault()
        } else {
            Said::NoServer
        };
        self.say(rt, said);
    }

    /// The next line of the log that is to be written.
    pub(crate) fn next_line<R: Wait>(&self, rt: &R) -> Option<LogLine> {
        self.log.pop(rt)
    }

    /// One more line was written, or can't be.
    pub(crate) fn has_written(&self) {
        self.written.fetch_add(1, Ordering::SeqCst);
    }

    /// Whether each line of the log was written.
    pub(crate) fn is_all_written(&self) -> bool {
        self.written.load(Ordering::SeqCst) >= self.put.load(Ordering::SeqCst)
    }

    /// Takes note of a line that was typed.
    pub(crate) fn type_line<R: Wait>(&self, rt: &R, typed: Typed) {
        if typed == Typed::Stop {
            self.stop.store(true, Ordering::SeqCst);
        }
        self.standing.lock(rt).type_line(typed);
    }

    /// The input has ended so.
    pub(crate) fn end_input<R: Wait>(&self, rt: &R, end: InputEnd) {
        self.standing.lock(rt).end_input(end);
    }

    /// Whether the server listens, or did.
    pub(crate) fn is_listening<R: Wait>(&self, rt: &R) -> bool {
        self.standing.lock(rt).is_listening()
    }

    /// What the console gives next. The log says whom it kicks.
    pub(crate) fn give<R: Wait + Clock>(&self, rt: &R) -> Given {
        let at = self.awake_for(rt);
        let given = self.standing.lock(rt).give(at);
        if let Given::Kick(client, by) = given {
            let said = self.standing.lock(rt).says_of_kick(client, by);
            if let Some(said) = said {
                self.say(rt, said);
            }
        }
        given
    }

    /// Whether the links have had the time that a clock leaves them after the match.
    pub(crate) fn is_late<R: Wait + Clock>(&self, rt: &R) -> bool {
        let at = self.awake_for(rt);
        self.standing.lock(rt).is_late(at)
    }
}
