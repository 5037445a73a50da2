ghost use Rattle.std.specs.Prelude.{◌≡◌};

use std::alloc::Allocator;
use std::marker::Model;

/// The pointer of a box and its allocator. Contracts see the value behind the pointer too, which it
/// owns with its block. It can't be let go, only made a box again or taken apart.
pub struct Loose<T, A: Allocator> {
    /// Where the value is.
    pub at: *mut T,
    /// What frees its block.
    pub alloc: A,
    pub ghost value: { T },
}

impl<T, A: Allocator> Model for Loose<T, A> {
    ghost use Rattle.std_alloc.specs.Box.Ownership.{box_owns};

    ghost also_owns = { λ l. box_owns (A.dealloc_token l.alloc) T.row l.at l.value };
}

impl<T: Drop, A: Allocator> Loose<T, A> {
    /// A box as its pointer, with the same value.
    pub fn of(boxed: Box<T, A>) -> Loose<T, A>
        ensures { result.value ≡ boxed.value }
    {
        let (at, alloc) = Box::into_raw_with_allocator(boxed);
        Loose { at, alloc }
    }

    /// The box again, with the same value.
    pub fn into_box(self) -> Box<T, A>
        ensures { result.value ≡ self.value }
    {
        let Loose { at, alloc } = self;
        unsafe { Box::from_raw(alloc, at) }
    }
}
