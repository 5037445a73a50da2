ghost use Rattle.std.specs.Prelude.{◌≡◌, Option, None, Some, option_map, is_none};
ghost use Rattle.c_objects.specs.declared.kept.Kept.{Kept};
ghost use Rattle.c_objects.specs.Objects.{kind_of};

use crate::handle::Handle;
use crate::kept::Kept;
use std::alloc::Global;
use std::mem::replace;

/// What C holds: a handle, and the number of the kind of what it holds, 0 for nothing.
#[repr(C)]
#[derive(Drop)]
pub struct Object {
    /// What it holds.
    pub held: Handle,
    kind: u32,
    ghost tie: { kind_of held.held ≡ kind },
}

impl Object {
    /// An object that holds nothing.
    pub fn empty() -> Object
        ensures { result.held.held ≡ None }
    {
        Object {
            held: Handle::empty(),
            kind: 0,
        }
    }

    /// An object that holds this.
    pub fn of(kept: Box<Kept>) -> Object
        ensures { result.held.held ≡ Some kept.value }
    {
        let kind = kept.kind();
        Object {
            held: Handle::of(kept),
            kind,
        }
    }

    /// Whether it holds nothing.
    pub fn is_empty(&self) -> bool
        ensures { result ≡ is_none self.now.held.held }
    {
        self.kind == 0
    }

    /// Takes out what it holds. `None` exactly where it holds nothing.
    pub fn take(&mut self, alloc: Global) -> Option<Box<Kept>>
        ensures taken { option_map (λ kept. kept.value) result ≡ self.old.held.held }
        ensures empty { self.new.held.held ≡ None }
    {
        let Object { held, kind } = replace(self, Object::empty());
        if kind == 0 {
            None
        } else {
            Some(held.into_box(alloc))
        }
    }

    /// Puts this into an object that holds nothing.
    pub fn put(&mut self, kept: Box<Kept>)
        requires { self.old.held.held ≡ None }
        ensures { self.new.held.held ≡ Some kept.value }
    {
        *self = Object::of(kept);
    }

    /// Frees what it holds.
    pub fn free(&mut self, alloc: Global)
        ensures { self.new.held.held ≡ None }
    {
        let _kept = self.take(alloc);
    }
}
