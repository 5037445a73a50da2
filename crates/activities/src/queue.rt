ghost use Rattle.std.specs.Prelude.{◌≡◌, ◌<◌, ◌≤◌, ◌↔◌, [], ◌∷◌, ◌++◌, drop, length, if◌then◌else◌};
ghost use Rattle.std.specs.Prelude.{IsNone, IsTrue, slice_get, slice_set};
ghost use Rattle.std.specs.Option.{option_copied};

use crate::activity::Activity;
use arrayvec::ArrayVec;
use std::marker::Model;

/// How many activities a queue holds at most.
pub const MAX_ACTIVITIES: usize = 16;

/// The activities of an actor, the one at work first: at most `MAX_ACTIVITIES`, held in place.
#[derive(Debug, Drop)]
pub struct Queue {
    held: ArrayVec<Activity, MAX_ACTIVITIES>,
}

impl Model for Queue {
    ghost use Rattle.std.specs.Prelude.{List};
    ghost use Rattle.activities.specs.declared.activity.Activity.{Activity};

    ghost Value = { List Activity };

    ghost view = { λ queue. queue.held.items };

    ghost inverse = { λ activities. record { held = record { items = activities } } };
}

impl Queue {
    /// A queue without activities.
    pub fn empty() -> Self
        ensures { result ≡ [] }
    {
        Queue {
            held: ArrayVec::new(),
        }
    }

    /// How many activities there are.
    pub fn len(&self) -> usize
        ensures value { result ≡ length self.now }
        ensures fits { length self.now ≤ MAX_ACTIVITIES }
    {
        self.held.len()
    }

    /// The activities, the one at work first.
    pub fn as_slice(&self) -> &[Activity]
        ensures value { result.now ≡ self.now }
        ensures fits { length self.now ≤ MAX_ACTIVITIES }
    {
        self.held.as_slice()
    }

    /// The activity at work. `None` comes exactly where there is none.
    pub fn head(&self) -> Option<&Activity>
        ensures value { option_copied result ≡ slice_get self.now 0 }
        ensures none { IsNone result ↔ (self.now ≡ []) }
    {
        self.held.as_slice().first()
    }

    /// Puts this activity in place of the one at work. Only where there is one.
    pub fn set_head(&mut self, a: Activity)
        requires { 0 < length self.old }
        ensures { self.new ≡ a ∷ drop 1 self.old }
    {
        self.held.as_mut_slice()[0] = a;
    }

    /// Drops all activities for this one.
    pub fn replace(&mut self, a: Activity)
        ensures { self.new ≡ a ∷ [] }
    {
        self.held.clear();
        self.held.push(a);
    }

    /// Adds an activity last. The answer is false exactly where `MAX_ACTIVITIES` stand there, and
    /// then nothing changes.
    pub fn append(&mut self, a: Activity) -> bool
        ensures room { IsTrue result ↔ (length self.old < MAX_ACTIVITIES) }
        ensures after { self.new ≡ (if result then self.old ++ a ∷ [] else self.old) }
        ensures fits { length self.new ≤ MAX_ACTIVITIES }
    {
        self.held.try_push(a).is_ok()
    }

    /// Takes the activity at work out. `None` comes exactly where there is none, and then nothing
    /// changes.
    pub fn pop(&mut self) -> Option<Activity>
        ensures value { result ≡ slice_get self.old 0 }
        ensures none { IsNone result ↔ (self.old ≡ []) }
        ensures rest { self.new ≡ drop 1 self.old }
    {
        self.held.pop_at(0)
    }

    /// Drops all activities.
    pub fn clear(&mut self)
        ensures { self.new ≡ [] }
    {
        self.held.clear();
    }

    /// A queue with the same activities.
    pub fn copy(&self) -> Self
        ensures { result ≡ self.now }
    {
        let mut twin = Queue::empty();
        for a in self.held.as_slice() {
            twin.held.push(*a);
        }
        twin
    }
}

impl PartialEq for Queue {
    ghost use Rattle.std.specs.Cmp.{decided, partial_equiv_from_equiv};
    ghost use Rattle.activities.specs.Activity.{same_queue};
    ghost use Rattle.activities.specs.ActivityEquality.{queue_decides};

    ghost eq = { same_queue };

    ghost laws = { partial_equiv_from_equiv (decided same_queue queue_decides) };

    fn eq(&self, other: &Queue) -> bool {
        self.held.as_slice() == other.held.as_slice()
    }
}

impl Eq for Queue {
    ghost use Rattle.std.specs.Cmp.{decided};
    ghost use Rattle.activities.specs.Activity.{same_queue};
    ghost use Rattle.activities.specs.ActivityEquality.{queue_decides};

    ghost laws = { decided same_queue queue_decides };
}
