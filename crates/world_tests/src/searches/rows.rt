/// Columns and rows.
pub(super) type Cells = (u8, u8);

/// Actors side by side that walk, each to a goal of its own.
pub(super) struct Walkers {
    /// How many they are.
    pub(super) count: u8,
    /// The cell of the first, and how far the next one's is from it, and so on.
    pub(super) first: Cells,
    pub(super) beside: Cells,
    /// How far each goes with a step.
    pub(super) step: Cells,
    /// The goal of the first, and how far the next one's is from it, and so on.
    pub(super) goal: Cells,
    pub(super) goal_beside: Cells,
}

/// Questions to a router, and how many searches there were when they were answered.
pub(super) struct Part {
    /// A building that comes first, or dies.
    pub(super) building: Option<(Cells, bool)>,
    /// Who asks, by turns.
    pub(super) walkers: (Walkers, Walkers),
    /// How often each asks: on its first cell, and after each step.
    pub(super) asked: u8,
    /// How many searches there were since the router was made.
    pub(super) computed: u64,
}

/// No actor.
const NOBODY: Walkers = Walkers {
    count: 0,
    first: (0, 0),
    beside: (0, 0),
    step: (0, 0),
    goal: (0, 0),
    goal_beside: (0, 0),
};

/// A question that is asked often; then a building comes onto the way, and dies.
pub(super) static ASKED_OFTEN: [Part; 3] = [
    Part {
        building: None,
        walkers: (
            Walkers {
                count: 1,
                first: (0, 0),
                beside: (0, 0),
                step: (0, 0),
                goal: (2, 0),
                goal_beside: (0, 0),
            },
            NOBODY,
        ),
        asked: 100,
        computed: 1,
    },
    Part {
        building: Some(((1, 0), true)),
        walkers: (
            Walkers {
                count: 1,
                first: (0, 0),
                beside: (0, 0),
                step: (0, 0),
                goal: (2, 0),
                goal_beside: (0, 0),
            },
            NOBODY,
        ),
        asked: 1,
        computed: 2,
    },
    Part {
        building: Some(((1, 0), false)),
        walkers: (
            Walkers {
                count: 1,
                first: (0, 0),
                beside: (0, 0),
                step: (0, 0),
                goal: (2, 0),
                goal_beside: (0, 0),
            },
            NOBODY,
        ),
        asked: 1,
        computed: 3,
    },
];

/// Goals of which the last four are kept at first, and one more whenever one comes back, at most
/// 32: of the first 32 goals 28 are searched for twice. None of the walks to them enters the cells
/// asked from.
pub(super) static MANY_GOALS: [Part; 4] = [
    Part {
        building: None,
        walkers: (
            Walkers {
                count: 32,
                first: (59, 0),
                beside: (0, 0),
                step: (0, 0),
                goal: (0, 0),
                goal_beside: (1, 0),
            },
            NOBODY,
        ),
        asked: 1,
        computed: 32,
    },
    Part {
        building: None,
        walkers: (
            Walkers {
                count: 32,
                first: (43, 0),
                beside: (0, 0),
                step: (0, 0),
                goal: (0, 0),
                goal_beside: (1, 0),
            },
            NOBODY,
        ),
        asked: 1,
        computed: 60,
    },
    Part {
        building: None,
        walkers: (
            Walkers {
                count: 33,
                first: (43, 0),
                beside: (0, 0),
                step: (0, 0),
                goal: (0, 0),
                goal_beside: (1, 0),
            },
            NOBODY,
        ),
        asked: 1,
        computed: 61,
    },
    Part {
        building: None,
        walkers: (
            Walkers {
                count: 1,
                first: (20, 0),
                beside: (0, 0),
                step: (0, 0),
                goal: (0, 0),
                goal_beside: (1, 0),
            },
            NOBODY,
        ),
        asked: 1,
        computed: 62,
    },
];

/// Walks on 150 rows, through the first half and through the second; then a building comes.
pub(super) static SIDE_BY_SIDE: [Part; 2] = [
    Part {
        building: None,
        walkers: (
            Walkers {
                count: 150,
                first: (0, 0),
                beside: (0, 1),
                step: (1, 0),
                goal: (19, 0),
                goal_beside: (0, 1),
            },
            Walkers {
                count: 150,
                first: (20, 0),
                beside: (0, 1),
                step: (1, 0),
                goal: (39, 0),
                goal_beside: (0, 1),
            },
        ),
        asked: 6,
        computed: 300,
    },
    Part {
        building: Some(((40, 7), true)),
        walkers: (
            Walkers {
                count: 1,
                first: (3, 0),
                beside: (0, 0),
                step: (0, 0),
                goal: (19, 0),
                goal_beside: (0, 0),
            },
            NOBODY,
        ),
        asked: 1,
        computed: 301,
    },
];

/// Walks on twenty rows, and on twenty columns that cross these.
pub(super) static ACROSS: [Part; 1] = [Part {
    building: None,
    walkers: (
        Walkers {
            count: 20,
            first: (0, 20),
            beside: (0, 1),
            step: (1, 0),
            goal: (39, 20),
            goal_beside: (0, 1),
        },
        Walkers {
            count: 20,
            first: (0, 0),
            beside: (1, 0),
            step: (0, 1),
            goal: (0, 39),
            goal_beside: (1, 0),
        },
    ),
    asked: 39,
    computed: 40,
}];
