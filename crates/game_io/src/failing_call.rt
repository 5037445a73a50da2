/// What remains of what a call was to write, after it failed as it was to. At a call that reads,
/// which writes nothing, it is not looked at.
#[derive(Clone, Copy, Debug, PartialEq, Eq)]
pub enum Remains {
    /// All is as before the call.
    Old,
    /// A file isn't there any more. In a sink all is as before the call.
    Nothing,
    /// The first bytes of what was to be written, so many of them, or all where there are fewer.
    Prefix(usize),
}

/// A call of a memory form that is to fail. Of two of one number the first says what remains, and
/// each is counted as a fault.
#[derive(Clone, Copy, Debug, PartialEq, Eq)]
pub struct FailingCall {
    /// The number of the call among all those of the object that can fail, from 0.
    pub call: u32,
    /// What remains after the call of what it was to write.
    pub remains: Remains,
}
