/// An event as an [`crate::EventList`] stores it: a seal names its part of the list's pool of
/// orders.
#[derive(Clone, Copy, Debug)]
pub(crate) enum EventHead {
    /// A seal of `count` orders, which stand in the pool from `first` on.
    Seal { peer: u8, count: u8, first: usize },
    /// As the event of this name, and so are the others.
    Up { packet: u32 },
    Down { peer: u8, client: u8, frame: u32 },
    Tick { peer: u8 },
    TickServer,
    DropClient { client: u8 },
    Report { peer: u8 },
    Forge { client: u8, frame: u32, hash: u64 },
    Bye { peer: u8 },
}

// A drill has up to 200,000 of them.
const _: () = prove!(size_of::<EventHead>() == 16);
