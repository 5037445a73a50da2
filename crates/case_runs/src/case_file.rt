/// A file of a case: its name and its bytes.
#[derive(Drop)]
pub struct CaseFile<'a> {
    /// The name, as the arguments write it.
    pub name: &'a str,
    /// The content.
    pub bytes: &'a [u8],
}
