use crate::sent::Sent;

/// A way in which a case may end. Most cases have one; of a match of which a client is kicked there
/// may be several, of which the threads choose.
#[derive(Drop)]
pub struct Ending<'a> {
    /// The status that must be answered.
    pub status: u8,
    /// The text that must be printed.
    pub text: &'a [u8],
    /// What must have been written to each link.
    pub sent: Vec<Sent<'a>>,
}
