ghost use Rattle.std.specs.Prelude.{◌≡◌, ℕ, ◌+◌, ◌^◌, ◌<◌, ◌≤◌, List, [], OnSome, IfNone};
ghost use Rattle.base.specs.Cause.{Increased};
ghost use Rattle.game_io.specs.Plan.{Plan, remains_at, next_remains, fresh, faults_of, called};
ghost use Rattle.game_io.specs.Plan.{missed};

use crate::failing_call::{FailingCall, Remains};
use base::FaultCount;
use std::marker::Model;

/// The calls of a memory form: how many there were, which of them are to fail, and the faults
/// beside those.
#[derive(Drop)]
pub struct Schedule {
    calls: u64,
    failing: Vec<FailingCall>,
    unplanned: FaultCount,
}

impl Model for Schedule {
    ghost Value = { Plan };

    ghost view = { λ s. record {
      calls = s.calls;
      failing = s.failing.items;
      unplanned = s.unplanned;
    } };
}

/// What remains after the call of this number, where it is to fail.
fn remains_at(calls: u64, failing: &[FailingCall]) -> Option<Remains>
    ensures value { result ≡ remains_at calls failing.now }
    ensures small { OnSome result (calls < 2 ^ 32) }
{
    for planned in failing {
        if u64::from(planned.call) == calls {
            return Some(planned.remains);
        }
    }
    None
}

impl Schedule {
    /// No call yet.
    pub(crate) fn new(failing: Vec<FailingCall>) -> Self
        ensures { result ≡ fresh failing.items }
    {
        Schedule {
            calls: 0,
            failing,
            unplanned: FaultCount::new(),
        }
    }

    /// Begins a call, and answers what remains after it where it is to fail.
    pub(crate) fn next(&mut self) -> Option<Remains>
        ensures value { result ≡ next_remains self.old }
        ensures after { self.new ≡ called self.old }
        ensures later { faults_of self.old ≤ faults_of self.new }
        ensures rose { OnSome result (Increased (faults_of self.old) (faults_of self.new)) }
        ensures steady { IfNone result (faults_of self.new ≡ faults_of self.old) }
    {
        let remains = remains_at(self.calls, &self.failing);
        self.calls = self.calls.saturating_add(1);
        remains
    }

    /// Counts a fault that was in no plan.
    pub(crate) fn miss(&mut self)
        ensures after { self.new ≡ missed self.old }
        ensures rose { Increased (faults_of self.old) (faults_of self.new) }
    {
        self.unplanned.raise();
    }

    /// The number of faults so far.
    pub(crate) fn faults(&self) -> u64
        ensures { result ≡ faults_of self.now }
    {
        let past = self
            .failing
            .iter()
            .filter(|planned| u64::from(planned.call) < self.calls)
            .count();
        (past as u64).saturating_add(self.unplanned.get())
    }
}
