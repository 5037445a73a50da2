ghost use Rattle.std.specs.Prelude.{◌≡◌, ◌<◌, ◌≤◌, ◌↔◌, [], ◌∷◌, ◌++◌, length, if◌then◌else◌};
ghost use Rattle.std.specs.Prelude.{IsTrue};
ghost use Rattle.std.specs.Prelude.{Some, slice_get, slice_set};
ghost use Rattle.std.specs.List.{remove};

use crate::limits::MAX_BUILDS;
use arrayvec::ArrayVec;
use std::marker::Model;

/// A unit that an actor is to build.
#[derive(Clone, Copy, Debug, Default, Drop)]
pub struct Build {
    /// The number of its kind, from 0.
    pub kind: u16,
    /// The turns that it still takes.
    pub left: u16,
}

/// What an actor is to build, the one at work first: at most [`MAX_BUILDS`], held in place.
#[derive(Debug, Drop)]
pub struct Builds {
    held: ArrayVec<Build, MAX_BUILDS>,
}

impl Model for Builds {
    ghost use Rattle.std.specs.Prelude.{List, ◌≤◌, length};
    ghost use Rattle.game_model.specs.declared.builds.Build.{Build};
    ghost use Rattle.game_model.specs.declared.limits.TheConstants.{MAX_BUILDS};

    ghost Value = { List Build };

    ghost view = { λ builds. builds.held.items };

    ghost invariant = { λ builds. length builds.held.items ≤ MAX_BUILDS };
}

impl Builds {
    /// No builds.
    pub fn empty() -> Builds
        ensures { result ≡ [] }
    {
        Builds {
            held: ArrayVec::new(),
        }
    }

    /// The number of builds, at most [`MAX_BUILDS`].
    pub fn len(&self) -> usize
        ensures value { result ≡ length self.now }
        ensures limit { result ≤ MAX_BUILDS }
    {
        let _held = &self.held;
        self.held.len()
    }

    /// True where there is none.
    pub fn is_empty(&self) -> bool
        ensures { IsTrue result ↔ (self.now ≡ []) }
    {
        self.held.is_empty()
    }

    /// The i-th build, from 0, which is there.
    pub fn get(&self, i: usize) -> &Build
        requires { i < length self.now }
        ensures { slice_get self.now i ≡ Some result.now }
    {
        &self.held.as_slice()[i]
    }

    /// Puts a build in place of the i-th, which is there. The others stay.
    pub fn set(&mut self, i: usize, b: Build)
        requires { i < length self.old }
        ensures { self.new ≡ slice_set self.old i b }
    {
        self.held.as_mut_slice()[i] = b;
    }

    /// Adds a build last. False exactly where [`MAX_BUILDS`] are there, and then nothing changes.
    pub fn try_push(&mut self, b: Build) -> bool
        ensures room { IsTrue result ↔ (length self.old < MAX_BUILDS) }
        ensures after { self.new ≡ (if result then self.old ++ b ∷ [] else self.old) }
    {
        self.held.try_push(b).is_ok()
    }

    /// Takes the i-th build out, which is there. The others keep their order.
    pub fn remove(&mut self, i: usize) -> Build
        requires { i < length self.old }
        ensures value { slice_get self.old i ≡ Some result }
        ensures rest { self.new ≡ remove self.old i }
    {
        self.held.remove(i)
    }

    /// The builds, the one at work first.
    pub fn as_slice(&self) -> &[Build]
        ensures { result.now ≡ self.now }
    {
        self.held.as_slice()
    }

    /// The same builds once more.
    pub fn copy(&self) -> Builds
        ensures { result ≡ self.now }
    {
        let mut held = ArrayVec::new();
        for build in self.held.as_slice() {
            held.push(*build);
        }
        Builds { held }
    }
}
