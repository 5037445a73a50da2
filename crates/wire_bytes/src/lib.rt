//! Little-endian fields: numbers of one, two, four and eight bytes, the lowest byte first.
//!
//! A `Cursor` reads them one after the other, and the `write_` calls append them. A field's number
//! and its bytes determine each other: what was written is read back, and what was read is written
//! back. It stands on `base` for its error where memory runs out, and on `byteorder`.
#![tactic(auto)]

mod cursor;
mod law;
mod short;
mod write;

pub use cursor::Cursor;
pub use law::{field_has_its_width, number_is_read_back, read_bytes_are_written};
pub use short::Short;
pub use write::{write_u8, write_u16, write_u32, write_u64};
