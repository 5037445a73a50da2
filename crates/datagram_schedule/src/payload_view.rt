ghost use Rattle.std.specs.Prelude.{◌≡◌};

use std::marker::Model;

/// The bytes of a payload that are lent, seen as a list.
#[derive(Drop)]
pub struct PayloadView<'a> {
    bytes: &'a [u8],
}

impl<'a> Model for PayloadView<'a> {
    ghost use Rattle.std.specs.Prelude.{List, ℕ};

    ghost Value = { List ℕ };

    ghost view = { λ payload. payload.bytes.now };
}

impl<'a> PayloadView<'a> {
    /// These bytes.
    pub fn of(bytes: &'a [u8]) -> Self
        ensures { result ≡ bytes.entry.now }
    {
        PayloadView { bytes }
    }

    /// The bytes in order.
    pub fn as_slice(&self) -> &[u8]
        ensures { result.now ≡ self.now }
    {
        self.bytes
    }
}
