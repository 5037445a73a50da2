use yaml_lines::{Place, Text};

/// A node that was passed over: a trait that isn't known or that the kind has already, or a field
/// that its trait hasn't.
#[derive(Drop)]
pub struct Skipped {
    /// Where it stands.
    pub place: Place,
    /// Its key.
    pub key: Text,
}
