/// How it stands with a link.
#[derive(Clone, Copy, Debug, PartialEq, Eq)]
pub(crate) enum Fate {
    /// It goes on.
    Open,
    /// The other side has ended it.
    Ended,
    /// It is lost.
    Lost,
}
