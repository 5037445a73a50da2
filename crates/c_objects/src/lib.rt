//! What C holds of the library: an object of two words, which owns a box of a setup, a world, a
//! peer or a server, or nothing.
//!
//! C never looks behind the pointer. A call takes the box out of the object ([`Object::take`]),
//! uses what it holds, and puts it back ([`Object::put`]). Contracts see an object as what it holds
//! (`specs/Objects.antt`), and the codes of the answers stand here, since every call has them.
#![tactic(auto)]

mod code;
mod handle;
mod kept;
mod object;

pub use code::{
    AHEAD, BAD_ARGUMENT, BAD_BYTES, CONFLICT, FAULT, FULL, IGNORED, LEFT, NO_FRAME, NO_MEMORY,
    NO_ROOM, NONE, NOT_YET, OK, OVER, PAST, REFUSED, REPEAT, TOO_EARLY, WRONG_OBJECT,
};
pub use handle::Handle;
pub use kept::Kept;
pub use object::Object;
