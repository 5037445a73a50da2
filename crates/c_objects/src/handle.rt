ghost use Rattle.std.specs.Prelude.{◌≡◌, ◌≢◌, Option, None, Some};
ghost use Rattle.c_objects.specs.declared.kept.Kept.{Kept};

use crate::kept::Kept;
use boxed_pointer::Loose;
use std::alloc::Global;
use std::marker::Model;
use std::ptr::null_mut;

/// The pointer of a box, which it owns, or nothing.
#[repr(C)]
#[derive(Drop)]
pub struct Handle {
    at: *mut u8,
    pub ghost held: { Option Kept },
}

impl Model for Handle {
    ghost use Rattle.c_objects.specs.Owns.{kept_owned};

    ghost also_owns = { λ h. kept_owned h.at h.held };
}

impl Handle {
    /// Nothing.
    pub fn empty() -> Handle
        ensures { result.held ≡ None }
    {
        Handle { at: null_mut() }
    }

    /// A box as a handle.
    pub fn of(kept: Box<Kept>) -> Handle
        ensures { result.held ≡ Some kept.value }
    {
        Handle::close(Loose::of(kept))
    }

    /// The box again, where there is one.
    pub fn into_box(self, alloc: Global) -> Box<Kept>
        requires { self.held ≢ None }
        ensures { Some result.value ≡ self.held }
    {
        self.open(alloc).into_box()
    }

    fn close(loose: Loose<Kept, Global>) -> Handle
        ensures { result.held ≡ Some loose.value }
    {
        let Loose { at, alloc: _ } = loose;
        Handle {
            at: at.cast::<u8>(),
        }
    }

    fn open(self, alloc: Global) -> Loose<Kept, Global>
        requires { self.held ≢ None }
        ensures { Some result.value ≡ self.held }
    {
        let Handle { at } = self;
        Loose {
            at: at.cast::<Kept>(),
            alloc,
        }
    }
}
