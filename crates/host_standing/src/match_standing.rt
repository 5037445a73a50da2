use crate::typed::{MAX_CLIENTS, Typed};
use game_io::MatchEvent;

/// After so many thousandths of a second the log says how far the match is.
const LOG_MILLIS: u64 = 10_000;

/// So many looks of the console without an event are longer than any step of a match.
const MAX_IDLE: u32 = 3_000;

/// What the log says, without its time.
#[derive(Clone, Copy, Debug, PartialEq, Eq)]
pub enum Said {
    /// Something happened that happens once.
    Happened(MatchEvent),
    /// How far the match is: frames were ticked, and this client's entry is waited for.
    Stands { frames: u32, waits_for: Option<u8> },
    /// The console gives a kick of this client.
    Kicked { client: u8, by: KickedBy },
    /// A line that was typed kicks a client that the match has not.
    NoClient { client: u8 },
    /// A line was typed that says nothing.
    SaysNothing,
    /// Ports of links over UDP are given, and no link is over UDP.
    NoPorts,
    /// The net has failed: the address can't be listened at, or no link has come, or the next one
    /// can't be accepted; or, of a player's, no server has answered.
    NoListening,
    NoLink,
    NoAccepting,
    NoServer,
}

/// By what a client is kicked.
#[derive(Clone, Copy, Debug, PartialEq, Eq)]
pub enum KickedBy {
    /// A line that was typed.
    Line,
    /// The line `stop`.
    Stop,
    /// The clock.
    Clock,
}

/// What the console gives next.
#[derive(Clone, Copy, Debug, PartialEq, Eq)]
pub enum Given {
    /// A line that kicks this client, by this.
    Kick(u8, KickedBy),
    /// A line that says nothing.
    Blank,
    /// Its end.
    End,
    /// A failure: what is typed can't be read.
    Failure,
    /// Nothing yet.
    Nothing,
}

/// How the input has ended from which the console is read.
#[derive(Clone, Copy, Debug, PartialEq, Eq)]
pub enum InputEnd {
    /// It goes on.
    Open,
    /// At its last byte.
    Ended,
    /// By a failure.
    Failed,
}

/// How a match stands at its host. Times are thousandths of a second since the host's start.
#[derive(Drop)]
pub struct MatchStanding {
    /// For how long a frame is waited for, and the links after the end, where a clock is wanted.
    patience: Option<u64>,
    /// How many clients have a link, or none that is waited for.
    seats: u8,
    /// Which of them have none, and which have left.
    is_empty: [bool; MAX_CLIENTS as usize],
    has_left: [bool; MAX_CLIENTS as usize],
    /// How many frames were ticked.
    frames: u32,
    /// When the last of them was, or the last link came.
    moved_at: u64,
    /// The client whose entry is waited for.
    waits_for: Option<u8>,
    /// When the log said last how far the match is, or the match began.
    stood_at: u64,
    /// When every client had left.
    over_at: Option<u64>,
    /// Which clients the console is to kick, and by what, and which it has kicked.
    to_kick: [Option<KickedBy>; MAX_CLIENTS as usize],
    kicked: [bool; MAX_CLIENTS as usize],
    /// Whether a line was typed that says nothing, and is to be given.
    has_blank: bool,
    /// Whether `stop` was typed.
    is_stopped: bool,
    input: InputEnd,
    /// Whether the server listens, or did.
    is_listening: bool,
    /// So many looks of the console have come since the last event.
    idle: u32,
}

impl MatchStanding {
    /// No link has come. With `patience` a frame is waited for so long.
    pub fn new(patience: Option<u64>) -> MatchStanding {
        MatchStanding {
            patience,
            seats: 0,
            is_empty: [false; MAX_CLIENTS as usize],
            has_left: [false; MAX_CLIENTS as usize],
            frames: 0,
            moved_at: 0,
            waits_for: None,
            stood_at: 0,
            over_at: None,
            to_kick: [None; MAX_CLIENTS as usize],
            kicked: [false; MAX_CLIENTS as usize],
            has_blank: false,
            is_stopped: false,
            input: InputEnd::Open,
            is_listening: false,
            idle: 0,
        }
    }

    /// Takes note of what happened at this time, and answers what the log says of it.
    pub fn note(&mut self, event: MatchEvent, at: u64) -> Option<Said> {
        self.idle = 0;
        match event {
            MatchEvent::Listens { .. } => self.is_listening = true,
            MatchEvent::LinkCame { client, from } => {
                self.take_seat(client, from.is_none());
                self.moved_at = at;
                self.stood_at = at;
            }
            MatchEvent::Ticked { frames } => {
                self.frames = frames;
                self.moved_at = at;
                self.waits_for = None;
                return self.stands(at);
            }
            MatchEvent::WaitsFor { client, .. } => {
                self.waits_for = Some(client);
                self.lose_patience(client, at);
                return self.stands(at);
            }
            MatchEvent::Over { frames } => {
                self.frames = frames;
                self.over_at = Some(at);
            }
            MatchEvent::Departs { client, .. } => mark(&mut self.has_left, client),
            MatchEvent::GreetsNot { client, .. } if is_marked(&self.is_empty, client) =>
                return None,
            MatchEvent::Greets { .. } | MatchEvent::GreetsNot { .. } => {}
        }
        Some(Said::Happened(event))
    }

    /// This client is in the match, and has no link where its place is empty.
    fn take_seat(&mut self, client: u8, is_empty: bool) {
        self.seats = self.seats.max(client.saturating_add(1)).min(MAX_CLIENTS);
        if is_empty {
            mark(&mut self.is_empty, client);
        }
    }

    /// How far the match is, where the log has not said so for long.
    fn stands(&mut self, at: u64) -> Option<Said> {
        if at.saturating_sub(self.stood_at) < LOG_MILLIS {
            return None;
        }
        self.stood_at = at;
        Some(Said::Stands {
            frames: self.frames,
            waits_for: self.waits_for,
        })
    }

    /// Kicks a client that is still waited for, if it was waited for too long.
    fn lose_patience(&mut self, client: u8, at: u64) {
        if let Some(patience) = self.patience {
            if at.saturating_sub(self.moved_at) >= patience {
                self.kick(client, KickedBy::Clock);
            }
        }
    }

    /// The console is to kick a client, unless it has, or is to already.
    fn kick(&mut self, client: u8, by: KickedBy) {
        if is_marked(&self.kicked, client) {
            return;
        }
        if let Some(place) = self.to_kick.get_mut(client as usize) {
            if place.is_none() {
                *place = Some(by);
            }
        }
    }

    /// What the log says of a kick that the console gives: nothing where the client has left before.
    pub fn says_of_kick(&self, client: u8, by: KickedBy) -> Option<Said> {
        if client >= self.seats {
            return Some(Said::NoClient { client });
        }
        if is_marked(&self.has_left, client) {
            return None;
        }
        Some(Said::Kicked { client, by })
    }

    /// What the log says where the net has failed.
    pub fn says_of_fault(&self) -> Said {
        if !self.is_listening {
            return Said::NoListening;
        }
        if self.seats == 0 {
            return Said::NoLink;
        }
        Said::NoAccepting
    }

    /// Whether the server listens, or did: the input is the console's from then on.
    pub fn is_listening(&self) -> bool {
        self.is_listening
    }

    /// Takes note of a line that was typed.
    pub fn type_line(&mut self, typed: Typed) {
        match typed {
            Typed::Kick(client) => self.kick(client, KickedBy::Line),
            Typed::Stop => self.is_stopped = true,
            Typed::Other => self.has_blank = true,
        }
    }

    /// The input has ended so.
    pub fn end_input(&mut self, end: InputEnd) {
        self.input = end;
    }

    /// What the console gives next: each client that is to be kicked, by number, then a line that
    /// says nothing, if one was typed, and then the end, if it is one.
    pub fn give(&mut self, at: u64) -> Given {
        if self.is_stopped {
            self.kick_all();
        }
        if let Some((client, by)) = self.next_kick() {
            return Given::Kick(client, by);
        }
        if self.has_blank {
            self.has_blank = false;
            return Given::Blank;
        }
        self.end_at(at)
    }

    /// What the console gives where it has no line. With a clock it goes on until the match is over,
    /// whatever became of the input.
    fn end_at(&mut self, at: u64) -> Given {
        self.count_idle(at);
        if self.is_stopped || (self.patience.is_some() && self.over_at.is_some()) {
            return Given::End;
        }
        match self.input {
            InputEnd::Ended if self.patience.is_none() => Given::End,
            InputEnd::Failed if self.patience.is_none() => Given::Failure,
            _ => Given::Nothing,
        }
    }

    /// Counts the looks between two events. After so many the match has ended without saying so, as
    /// where memory ran out.
    fn count_idle(&mut self, at: u64) {
        self.idle = self.idle.saturating_add(1);
        if self.idle >= MAX_IDLE && self.over_at.is_none() {
            self.over_at = Some(at);
        }
    }

    /// Every client of the match is to be kicked.
    fn kick_all(&mut self) {
        for client in 0..self.seats {
            self.kick(client, KickedBy::Stop);
        }
    }

    /// The first client that is to be kicked, and by what. From then on it is kicked.
    fn next_kick(&mut self) -> Option<(u8, KickedBy)> {
        for client in 0..MAX_CLIENTS {
            if let Some(by) = self.to_kick[client as usize] {
                self.to_kick[client as usize] = None;
                self.kicked[client as usize] = true;
                return Some((client, by));
            }
        }
        None
    }

    /// Whether every client had left for as long by this time as a clock leaves to the links.
    pub fn is_late(&self, at: u64) -> bool {
        match (self.patience, self.over_at) {
            (Some(patience), Some(over_at)) => at.saturating_sub(over_at) >= patience,
            _ => false,
        }
    }
}

/// Marks a client.
fn mark(marks: &mut [bool; MAX_CLIENTS as usize], client: u8) {
    if let Some(place) = marks.get_mut(client as usize) {
        *place = true;
    }
}

/// Whether a client is marked, or none that a match can have.
fn is_marked(marks: &[bool; MAX_CLIENTS as usize], client: u8) -> bool {
    marks.get(client as usize).copied().unwrap_or(true)
}
