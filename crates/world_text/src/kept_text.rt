use crate::print_fault::PrintFault;

/// Text that is kept back until it is a piece, and what went wrong, if something did. From then on
/// nothing is added or written.
#[derive(Drop)]
pub(crate) struct KeptText {
    /// The text.
    pub(crate) text: String,
    /// Why nothing is written any more.
    pub(crate) fault: Option<PrintFault>,
}
