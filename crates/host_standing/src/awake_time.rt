ghost use Rattle.std.specs.Prelude.{◌≡◌, ◌≤◌, ◌+◌};
ghost use Rattle.host_standing.specs.declared.awake_time.TheConstants.{MAX_STEP};

/// The most thousandths of a second between two looks that count. What is longer the process was
/// stopped for.
pub const MAX_STEP: u64 = 500;

/// For how long a host's process ran, in thousandths of a second: the clocks of its match count that.
/// The time in which it was stopped, as by SIGSTOP, is left out, since no client could be heard then.
/// It is to be looked at every few hundredths of a second.
#[derive(Drop)]
pub struct AwakeTime {
    looked_at: u64,
    passed: u64,
}

impl AwakeTime {
    /// No time has passed.
    pub fn new() -> AwakeTime
        ensures { result.passed ≡ 0 }
    {
        AwakeTime {
            looked_at: 0,
            passed: 0,
        }
    }

    /// How long it ran, where this is the time by a clock that goes on meanwhile.
    pub fn look(&mut self, at: u64) -> u64
        ensures passed { result ≡ self.new.passed }
        ensures later { self.old.passed ≤ result }
        ensures most { result ≤ self.old.passed + MAX_STEP }
    {
        let step = at.saturating_sub(self.looked_at).min(MAX_STEP);
        self.looked_at = self.looked_at.max(at);
        self.passed = self.passed.saturating_add(step);
        self.passed
    }
}
