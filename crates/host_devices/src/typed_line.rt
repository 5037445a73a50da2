use arrayvec::ArrayVec;
use host_standing::{LINE_ROOM, Typed, what_is_typed};

/// The bytes of a line of the console so far: as much of it as says something.
#[derive(Drop)]
pub(crate) struct TypedLine {
    bytes: ArrayVec<u8, LINE_ROOM>,
}

impl TypedLine {
    /// A line without bytes.
    pub fn new() -> TypedLine {
        TypedLine {
            bytes: ArrayVec::new(),
        }
    }

    /// Adds a byte. What has no room is left out: no line that is so long says something.
    pub fn add(&mut self, byte: u8) {
        if !self.bytes.is_full() {
            self.bytes.push(byte);
        }
    }

    /// True where it has no byte.
    pub fn is_empty(&self) -> bool {
        self.bytes.is_empty()
    }

    /// What the line says. The next one begins.
    pub fn end(&mut self) -> Typed {
        let typed = what_is_typed(self.bytes.as_slice());
        self.bytes.clear();
        typed
    }
}
