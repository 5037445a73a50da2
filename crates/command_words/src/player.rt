/// Who plays over a link.
#[derive(Clone, Copy, Debug)]
pub(crate) enum Player<'a> {
    /// The script that the file of this name holds.
    Script(&'a str),

    /// A bot.
    Bot {
        /// How many frames it plays.
        frames: u32,
    },
}
