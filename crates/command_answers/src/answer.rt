/// What a command answers.
#[derive(Drop)]
pub struct Answer<'a> {
    /// The status.
    pub status: u8,
    /// The text.
    pub text: Vec<u8>,
    /// The file that is written after the text, if one is.
    pub write: Option<FileBytes<'a>>,
}

/// A file to be written.
#[derive(Drop)]
pub struct FileBytes<'a> {
    /// Its name.
    pub name: &'a str,
    /// All of its bytes.
    pub bytes: Vec<u8>,
}
