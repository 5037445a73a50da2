use crate::lists::{KindNumbers, NameList};

/// It has hit points.
#[derive(Clone, Copy, Debug, Drop, PartialEq, Eq)]
pub struct Health {
    /// Hit points at full health, 1 to 1,000,000,000.
    pub hp: u32,
}

/// What it costs to enter a cell, each 0 to 10. A cell of cost 0 can't be entered, and neither can
/// one of rock.
#[derive(Clone, Copy, Debug, Drop, PartialEq, Eq)]
pub struct Costs {
    /// The cost of a clear cell, 0 to 10.
    pub clear: u8,
    /// The cost of a road, 0 to 10.
    pub road: u8,
    /// The cost of rough ground, 0 to 10.
    pub rough: u8,
    /// The cost of water, 0 to 10.
    pub water: u8,
}

/// It moves and turns.
#[derive(Clone, Copy, Debug, Drop, PartialEq, Eq)]
pub struct Mobile {
    /// Units that it moves in a tick, of which a cell has 1,024: 0 to 65,535.
    pub speed: u32,
    /// How far it turns in a tick, in 1,024ths of a turn, 0 to 1,023.
    pub turn: u16,
    /// What the cells cost that it enters.
    pub costs: Costs,
}

/// It gathers ore.
#[derive(Clone, Copy, Debug, Drop, PartialEq, Eq)]
pub struct Harvester {
    /// The most bales that it holds, 1 to 10,000.
    pub capacity: u16,
    /// Ticks that it loads one bale, 0 to 65,535.
    pub load_delay: u16,
    /// Ticks that it unloads one bale, 0 to 65,535.
    pub unload_delay: u16,
}

/// It takes in ore for cash.
#[derive(Clone, Copy, Debug, Drop, PartialEq, Eq)]
pub struct Refinery {
    /// What one bale is worth in cash, 0 to 10,000.
    pub value: u32,
}

/// It builds kinds of certain queues.
#[derive(Drop)]
pub struct Production {
    /// The names of the queues, any number of them.
    pub produces: NameList,
}

/// It can be built.
#[derive(Drop)]
pub struct Buildable {
    /// The names of the queues in which it can be built, any number of them.
    pub queue: NameList,
    /// Ticks that it takes to build it, 0 to 65,535.
    pub duration: u16,
    /// The numbers of the kinds that its owner needs to have, each that of a kind of the same
    /// rules.
    pub needs: KindNumbers,
}

/// It has a price.
#[derive(Clone, Copy, Debug, Drop, PartialEq, Eq)]
pub struct Valued {
    /// The price in cash, 0 to 2,000,000,000.
    pub cost: u32,
}

/// It shoots.
#[derive(Clone, Copy, Debug, Drop, PartialEq, Eq)]
pub struct Armament {
    /// How far it shoots, in units, of which a cell has 1,024: 0 to 131,072.
    pub range: u32,
    /// Hit points that a hit takes away at least, 0 to 1,000,000.
    pub damage: u32,
    /// Up to so many more hit points a hit takes away, 0 to 1,000,000.
    pub spread: u32,
    /// Ticks from one shot to the next, 0 to 65,535.
    pub reload: u16,
}

/// It reveals the cells around it to its owner.
#[derive(Clone, Copy, Debug, Drop, PartialEq, Eq)]
pub struct Reveals {
    /// How far it sees, in units, of which a cell has 1,024: 0 to 131,072.
    pub range: u32,
}
