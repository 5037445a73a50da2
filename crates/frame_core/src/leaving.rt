/// What a departure answers.
#[derive(Clone, Copy, Debug, PartialEq, Eq)]
pub enum Leaving {
    /// The client leaves at this frame.
    Fixed(u32),
    /// The client left before, at this frame.
    Already(u32),
}
