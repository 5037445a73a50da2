use thiserror::Error;

/// A call of a source or a sink failed, and the count of faults of that object rose in it.
#[derive(Debug, PartialEq, Eq, Drop, Error)]
#[error("failed")]
pub struct Failed;
