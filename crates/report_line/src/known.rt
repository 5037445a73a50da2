use crate::heard::Heard;
use std::collections::LinkedList;

/// What an end of the queue knows, or the receiver. No value of it is made: contracts alone speak
/// of it.
pub struct Known {
    /// It is an end, and may push.
    pub pushes: bool,
    /// The number of the end.
    pub number: u64,
    /// What the end pushed, in order.
    pub pushed: LinkedList<Heard>,
    /// It is the receiver, and may pop.
    pub hears: bool,
    /// What was popped, in order.
    pub heard: LinkedList<Heard>,
    /// How many ends were made.
    pub ends: u64,
    /// What each end that was joined had pushed, by number.
    pub joined: LinkedList<LinkedList<Heard>>,
}
