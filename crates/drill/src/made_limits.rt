/// The number of clients of the made drill.
pub const MADE_CLIENTS: u8 = 4;

/// How far a client of the made drill may seal ahead of its ticked frames.
pub const MADE_LAG: u8 = 3;

/// The number of rounds of the made drill. Each client in the match plays one frame in each.
pub const MADE_ROUNDS: u32 = 400;

/// Before this round, from 0, the server lets the last client leave.
pub const DEPARTURE_ROUND: u32 = 300;

/// An order of the made drill is for one of so many actors, by their ids from 1 on.
pub const DRAWN_ACTORS: u32 = 16;

/// Its cell lies within so many columns and rows from 0 on.
pub const DRAWN_SIDE: u32 = 16;

/// It produces one of so many kinds, from 0 on.
pub const DRAWN_KINDS: u32 = 8;

/// It donates less than this.
pub const DRAWN_CASH: u32 = 100;

/// One draw in so many decides what a client plays; some stand for no orders.
pub const ORDER_CHOICES: u32 = 8;

/// One packet or entry in so many is lost at first, by a draw.
pub const LOSS_CHOICES: u32 = 4;

/// The deliveries and ticks of a round are at most so many draws and events.
pub(crate) const ECHOES_SIZE: u32 = 56;

/// A round has at most so many draws, packets and events together.
pub(crate) const ROUND_SIZE: u32 = 106;
