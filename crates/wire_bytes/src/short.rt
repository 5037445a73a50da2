use thiserror::Error;

/// Fewer bytes are left than a field has.
#[derive(Debug, PartialEq, Eq, Drop, Error)]
#[error("{need} bytes are needed, and {have} are left")]
pub struct Short {
    /// The bytes of the field.
    pub need: usize,
    /// The bytes that are left.
    pub have: usize,
}
