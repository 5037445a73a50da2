ghost use Rattle.std.specs.Prelude.{◌≡◌, ◌+◌, ◌≤◌, min};

use std::marker::Model;
use std::sync::Wait;
use std::thread::{self, Parker};
use std::time::Duration;

/// After so many looks in a row that found nothing a pause is a sleep.
pub const SPINS_BEFORE_SLEEP: u32 = 1_024;

/// How long such a sleep is, in millionths of a second.
pub const NAP_MICROS: u64 = 500;

/// How many looks in a row have found nothing, at most [`SPINS_BEFORE_SLEEP`].
#[derive(Drop)]
pub struct Pause {
    looks: u32,
}

impl Model for Pause {
    ghost use Rattle.std.specs.Prelude.{ℕ, ◌≤◌};
    ghost use Rattle.idle_pause.specs.declared.pause.TheConstants.{SPINS_BEFORE_SLEEP};

    ghost Value = { ℕ };

    ghost view = { λ pause. pause.looks };

    ghost invariant = { λ pause. pause.looks ≤ SPINS_BEFORE_SLEEP };
}

impl Pause {
    /// No look has found nothing yet.
    pub fn new() -> Pause
        ensures { result ≡ 0 }
    {
        Pause { looks: 0 }
    }

    /// A look has found something.
    pub fn end(&mut self)
        ensures { self.new ≡ 0 }
    {
        self.looks = 0;
    }

    /// Call it after a look that found nothing. It yields the processor to other threads, or, once
    /// [`SPINS_BEFORE_SLEEP`] looks in a row had found nothing before, sleeps [`NAP_MICROS`]
    /// millionths of a second.
    pub fn rest<R: Wait>(&mut self, rt: &R)
        ensures count { self.new ≡ min (self.old + 1) SPINS_BEFORE_SLEEP }
    {
        if self.looks < SPINS_BEFORE_SLEEP {
            self.looks += 1;
            thread::yield_now();
        } else {
            Parker::new().park_timeout(rt, Duration::from_micros(NAP_MICROS));
        }
    }
}
