use crate::text::Text;

/// What a kept line says.
#[derive(Drop)]
pub struct Found {
    /// Its level, from 0.
    pub level: usize,
    /// Its key.
    pub key: Text,
    /// Its value.
    pub value: Text,
}
