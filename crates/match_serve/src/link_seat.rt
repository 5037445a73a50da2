//! What serves a link, beside its halves.
use frame_table::Pass;
use match_net::{Invite, ReaderEnd, Reports, SenderEnd};
use order_packets::UpFeeder;

/// What a link is read with: the pass that feeds its client's column, the bytes that are no packet
/// yet, an end of the queue of reports, and how many bytes were taken from it.
#[derive(Drop)]
pub(crate) struct ReadSeat {
    pub pass: Pass,
    pub feeder: UpFeeder,
    pub reports: Reports,
    pub taken: u64,
}

/// How the two sessions of a link ended.
#[derive(Clone, Copy)]
pub(crate) struct SessionEnds {
    pub reader: ReaderEnd,
    pub sender: SenderEnd,
}

/// What a link is served with: what its client is told, what it is read with, the pass that it is
/// sent to with, and how its sessions ended.
#[derive(Drop)]
pub(crate) struct LinkSeat {
    pub invite: Invite,
    pub reading: ReadSeat,
    pub sending: Pass,
    pub ends: SessionEnds,
}
