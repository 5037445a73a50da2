use crate::kept_text::KeptText;

/// Prints text to a sink: it gathers lines and writes them in pieces of [`PIECE`](crate::PIECE)
/// bytes or some more. Once a write fails, or memory runs out, nothing is printed any more.
#[derive(Drop)]
pub struct Printer {
    /// The next line, for whoever prints it by [`Printer::print_line`](crate::Printer::print_line).
    pub line: String,
    pub(crate) kept: KeptText,
}
