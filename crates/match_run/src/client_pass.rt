use frame_table::Pass;

/// What the thread of one client has: the client, and a pass of the table.
#[derive(Drop)]
pub(crate) struct ClientPass {
    pub client: u8,
    pub pass: Pass,
}
