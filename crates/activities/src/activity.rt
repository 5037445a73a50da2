use world_units::CPos;

/// One activity of an actor. An actor gives up at the eighth step in a row at which the next cell
/// is occupied, so in a world `waits` is below 8.
#[derive(Clone, Copy, Debug)]
pub enum Activity {
    /// Go to a cell.
    Move {
        /// The cell to go to.
        goal: CPos,
        /// The steps in a row at which the next cell was occupied.
        waits: u8,
    },
    /// Attack an actor.
    Attack {
        /// The id of the actor to attack, any `u32`.
        target: u32,
        /// The steps in a row at which the next cell was occupied.
        waits: u8,
    },
    /// Gather ore.
    Harvest {
        /// The cell at which it gathers first.
        cell: CPos,
        /// The ticks so far of the load at work, in a world below the kind's delay for it.
        timer: u16,
        /// The steps in a row at which the next cell was occupied.
        waits: u8,
    },
    /// Bring the load to a refinery, and then gather again.
    Deliver {
        /// The cell where the load was gathered, and where it gathers again.
        home: CPos,
        /// The ticks so far of the unload at work, in a world below the kind's delay for it.
        timer: u16,
        /// The steps in a row at which the next cell was occupied.
        waits: u8,
    },
}

impl PartialEq for Activity {
    ghost use Rattle.std.specs.Cmp.{decided, partial_equiv_from_equiv};
    ghost use Rattle.activities.specs.Activity.{same_activity};
    ghost use Rattle.activities.specs.ActivityEquality.{activity_decides};

    ghost eq = { same_activity };

    ghost laws = { partial_equiv_from_equiv (decided same_activity activity_decides) };

    fn eq(&self, other: &Activity) -> bool {
        match (self, other) {
            (
                Activity::Move { goal, waits },
                Activity::Move {
                    goal: other_goal,
                    waits: other_waits,
                },
            ) => goal == other_goal && waits == other_waits,
            (
                Activity::Attack { target, waits },
                Activity::Attack {
                    target: other_target,
                    waits: other_waits,
                },
            ) => target == other_target && waits == other_waits,
            (
                Activity::Harvest { cell, timer, waits },
                Activity::Harvest {
                    cell: other_cell,
                    timer: other_timer,
                    waits: other_waits,
                },
            ) => cell == other_cell && timer == other_timer && waits == other_waits,
            (
                Activity::Deliver { home, timer, waits },
                Activity::Deliver {
                    home: other_home,
                    timer: other_timer,
                    waits: other_waits,
                },
            ) => home == other_home && timer == other_timer && waits == other_waits,
            (Activity::Move { .. }, _)
            | (Activity::Attack { .. }, _)
            | (Activity::Harvest { .. }, _)
            | (Activity::Deliver { .. }, _) => false,
        }
    }
}

impl Eq for Activity {
    ghost use Rattle.std.specs.Cmp.{decided};
    ghost use Rattle.activities.specs.Activity.{same_activity};
    ghost use Rattle.activities.specs.ActivityEquality.{activity_decides};

    ghost laws = { decided same_activity activity_decides };
}

impl Default for Activity {
    ghost use Rattle.std.specs.Prelude.{◌≡◌};
    ghost use Rattle.activities.specs.declared.activity.Activity.TheVariants.{Move};

    ghost is_default = { λ activity. activity ≡ Move (record { x = 0; y = 0 }) 0 };

    /// What fills the unused places of a queue.
    fn default() -> Self {
        Activity::Move {
            goal: CPos { x: 0, y: 0 },
            waits: 0,
        }
    }
}
