/// An event as its line is read: the orders of a seal stand beside it. Its variants and their
/// numbers are those of [`crate::Event`].
#[derive(Clone, Copy, Debug)]
pub(crate) enum BareEvent {
    /// A seal, without its orders.
    Seal { peer: u8 },
    /// As the event of this name, and so are the others.
    Up { packet: u32 },
    Down { peer: u8, client: u8, frame: u32 },
    Tick { peer: u8 },
    TickServer,
    DropClient { client: u8 },
    Report { peer: u8 },
    Forge { client: u8, frame: u32, hash: u64 },
    Bye { peer: u8 },
}
