use crate::gate::Gate;
use crate::watch::NoWatch;
use std::sync::atomic::{AtomicBool, Ordering};
use std::thread;

/// The greatest number of turns of one hold.
pub const MAX_HOLD_TURNS: u32 = 200_000_000;

/// A gate for tests, which one thread that feeds both clients 0 and 1 can't pass. It holds these
/// two: at frame 0 each until the gate was asked for the other's play of frame 0, and at frame 1
/// each until the other's put of frame 0 was answered. A hold ends after [`MAX_HOLD_TURNS`] turns.
#[derive(Drop)]
pub struct HoldGate {
    first: Held,
    second: Held,
    ended: AtomicBool,
}

/// What happened for one of the two clients: whether its play of frame 0 came to the gate, and
/// whether the put of that play was answered.
#[derive(Drop)]
struct Held {
    came: AtomicBool,
    answered: AtomicBool,
}

impl Held {
    fn new() -> Held {
        Held {
            came: AtomicBool::new(false),
            answered: AtomicBool::new(false),
        }
    }
}

impl HoldGate {
    /// A gate to which no play has come yet.
    pub fn new() -> HoldGate {
        HoldGate {
            first: Held::new(),
            second: Held::new(),
            ended: AtomicBool::new(false),
        }
    }

    /// True where the turns of some hold have ended.
    pub fn timed_out(&self) -> bool {
        self.ended.load(Ordering::SeqCst)
    }

    /// Client 0 or 1, and the other of the two. None of any further client.
    fn pair(&self, client: u8) -> Option<(&Held, &Held)> {
        match client {
            0 => Some((&self.first, &self.second)),
            1 => Some((&self.second, &self.first)),
            _ => None,
        }
    }

    /// Waits until this is true, or the turns end.
    fn hold(&self, until: &AtomicBool) {
        for _turn in 0..MAX_HOLD_TURNS {
            if until.load(Ordering::SeqCst) {
                return;
            }
            thread::yield_now();
        }
        self.ended.store(true, Ordering::SeqCst);
    }
}

impl Gate for HoldGate {
    type Watch = NoWatch;

    fn before(&self, client: u8, frame: u32) {
        let Some((own, other)) = self.pair(client) else {
            return;
        };
        match frame {
            0 => {
                own.came.store(true, Ordering::SeqCst);
                self.hold(&other.came);
            }
            1 => self.hold(&other.answered),
            _ => {}
        }
    }

    fn after(&self, client: u8, frame: u32) {
        if frame != 0 {
            return;
        }
        if let Some((own, _)) = self.pair(client) {
            own.answered.store(true, Ordering::SeqCst);
        }
    }

    fn watch(&self) -> &NoWatch {
        NoWatch::lent()
    }
}
