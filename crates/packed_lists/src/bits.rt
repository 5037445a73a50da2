ghost use Rattle.std.specs.Prelude.{◌≡◌, ◌<◌, ◌↔◌, IsTrue, false, length, replicate, Some, slice_get, slice_set, IfOk};
ghost use Rattle.packed_lists.specs.Digits.{is_one};

use crate::digit::{digit, with_digit};
use crate::words::{copy_words, same_words, zero_words};
use base::NoMemory;
use std::alloc::Global;
use std::marker::Model;

/// Flags of a word.
const PER_WORD: usize = 64;

/// A list of flags, 64 to a word. Its length is fixed.
#[derive(Drop)]
pub struct Bits {
    len: usize,
    words: Vec<u64>,
}

impl Model for Bits {
    ghost use Rattle.std.specs.Prelude.{List, Bool, map};
    ghost use Rattle.packed_lists.specs.Digits.{unpacked, is_one, ArePacked};

    ghost Value = { List Bool };

    ghost view = { λ b. map is_one (unpacked 2 64 b.len b.words.items) };

    ghost invariant = { λ b. ArePacked 2 64 b.len b.words.items };
}

/// The digit of a flag: 1 where it is set.
fn flag_digit(on: bool) -> u64
    ensures value { is_one result ≡ on }
    ensures small { result < 2 }
{
    if on { 1 } else { 0 }
}

impl Bits {
    /// So many flags, none of them set. Out of memory is its only error.
    pub fn clear(alloc: Global, len: u32) -> Result<Bits, NoMemory>
        ensures { IfOk result (λ bits. bits ≡ replicate len false) }
    {
        let len = len as usize;
        let words = zero_words(alloc, (len + (PER_WORD - 1)) / PER_WORD)?;
        Ok(Bits { len, words })
    }

    /// The flag at `i`, which is below the length.
    pub fn get(&self, i: usize) -> bool
        requires { i < length self.now }
        ensures { slice_get self.now i ≡ Some result }
    {
        digit(self.words[i / PER_WORD], 1, (i % PER_WORD) as u32) == 1
    }

    /// Sets the flag at `i`, which is below the length. The others stay.
    pub fn set(&mut self, i: usize, on: bool)
        requires { i < length self.old }
        ensures { self.new ≡ slice_set self.old i on }
    {
        let word = i / PER_WORD;
        let place = (i % PER_WORD) as u32;
        self.words[word] = with_digit(self.words[word], 1, place, flag_digit(on));
    }

    /// Whether both hold the same.
    pub fn is_same(&self, other: &Self) -> bool
        ensures { IsTrue result ↔ (self.now ≡ other.now) }
    {
        self.len == other.len && same_words(self.words.as_slice(), other.words.as_slice())
    }

    /// Takes what another of its length holds. It takes no memory.
    pub fn copy_from(&mut self, other: &Self)
        requires { length self.old ≡ length other.now }
        ensures { self.new ≡ other.now }
    {
        copy_words(self.words.as_mut_slice(), other.words.as_slice());
    }
}
