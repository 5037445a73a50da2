/// Which worlds of a replay are printed, by the numbers of frames before them.
#[derive(Clone, Copy, Debug)]
pub(crate) struct Chosen {
    /// The first number.
    pub(crate) from: u32,
    /// The greatest number.
    pub(crate) last: u32,
    /// How far the numbers are apart. 0 is as 1.
    pub(crate) every: u32,
}
