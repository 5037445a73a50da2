use game_io::FailingCall;

/// A link of a case.
#[derive(Drop)]
pub struct CaseLink<'a> {
    /// The bytes that it gives.
    pub bytes: &'a [u8],
    /// The calls of `take` of its source that are to fail.
    pub takes: Vec<FailingCall>,
    /// The calls of `put` of its sink that are to fail.
    pub puts: Vec<FailingCall>,
}
