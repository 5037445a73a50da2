/// A word, and the number that it writes, if it writes one.
#[derive(Clone, Copy, Debug)]
pub(crate) struct Numeral<'a> {
    /// The word.
    pub word: &'a [u8],
    /// Its number, below 10^10.
    pub number: Option<u64>,
}
