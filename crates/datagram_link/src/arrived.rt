/// The answer to a payload that arrives.
#[derive(Clone, Copy, Debug, PartialEq, Eq)]
pub enum Arrived {
    /// It is the next one: so many payloads came into order.
    Delivered(u32),
    /// It is kept until those before it have come.
    Kept,
    /// Its number has arrived before.
    Repeat,
    /// Its number is beyond the window, or that of no payload.
    TooFar,
}
