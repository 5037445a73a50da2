//! What a match over links logs. No clause speaks of it.

use game_io::{MatchEvent, NoGreeting, Watch};
use game_orders::{Frame, MAX_CLIENTS};
use idle_pause::{NAP_MICROS, SPINS_BEFORE_SLEEP};
use match_net::Greeting;
use order_packets::{OTHER_RULES, OTHER_VERSION};

/// For how many millionths of a second the match waits, at the least, before that is logged once
/// more.
const WAIT_MICROS: u64 = 50_000;

/// So many looks that found nothing, each followed by a sleep, take that long.
const LOOKS_A_WAIT: u32 = (WAIT_MICROS / NAP_MICROS) as u32;

/// How a link greets, for a log.
pub(crate) fn greeting_event(client: u8, greeting: &Greeting) -> MatchEvent {
    let why = match greeting {
        Greeting::Welcome => return MatchEvent::Greets { client },
        Greeting::Refuse { code } => refusal(*code),
        Greeting::Fault(_) => NoGreeting::NoPacket,
        Greeting::Ended => NoGreeting::Ended,
        Greeting::Lost => NoGreeting::Lost,
    };
    MatchEvent::GreetsNot { client, why }
}

/// Why a client is refused, by the code that it is sent.
fn refusal(code: u8) -> NoGreeting {
    if code == OTHER_VERSION {
        NoGreeting::OtherVersion
    } else if code == OTHER_RULES {
        NoGreeting::OtherRules
    } else {
        NoGreeting::NoHello
    }
}

/// What the ticking thread logs: to whom, which departures it has logged, how many frames were ticked,
/// and how many looks in a row have found no frame.
#[derive(Drop)]
pub(crate) struct TickLog<'a, W: Watch> {
    watch: &'a W,
    departed: [bool; MAX_CLIENTS as usize],
    frames: u32,
    looks: u32,
}

impl<'a, W: Watch> TickLog<'a, W> {
    /// Nothing was logged yet.
    pub fn new(watch: &'a W) -> TickLog<'a, W> {
        TickLog {
            watch,
            departed: [false; MAX_CLIENTS as usize],
            frames: 0,
            looks: 0,
        }
    }

    /// Logs each client that has left by frame `n`, whose entries these are, once.
    pub fn departures(&mut self, n: u32, frame: &Frame) {
        for client in 0..MAX_CLIENTS {
            let Some(entry) = frame.get(client as usize) else {
                return;
            };
            if !entry.is_play() {
                self.departure(client, n);
            }
        }
    }

    /// Logs that a client has left by frame `n`, once.
    fn departure(&mut self, client: u8, n: u32) {
        if let Some(departed) = self.departed.get_mut(client as usize) {
            if !*departed {
                *departed = true;
                self.watch.log(MatchEvent::Departs { client, frame: n });
            }
        }
    }

    /// Logs that so many frames were ticked.
    pub fn ticked(&mut self, frames: u32) {
        self.frames = frames;
        self.looks = 0;
        self.watch.log(MatchEvent::Ticked { frames });
    }

    /// A look has found that frame `n` lacks the entry of a client. That is logged each time when
    /// the match has waited so long again.
    pub fn waits_for(&mut self, n: u32, client: u8) {
        if self.looks < SPINS_BEFORE_SLEEP + LOOKS_A_WAIT {
            self.looks += 1;
            return;
        }
        self.looks = SPINS_BEFORE_SLEEP;
        self.watch.log(MatchEvent::WaitsFor { frame: n, client });
    }

    /// Logs that the match is over.
    pub fn over(&self) {
        let frames = self.frames;
        self.watch.log(MatchEvent::Over { frames });
    }
}
