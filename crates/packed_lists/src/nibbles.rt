ghost use Rattle.std.specs.Prelude.{◌≡◌, ◌<◌, ◌≤◌, ◌↔◌, IsTrue, length, replicate, Some, slice_get, slice_set, IfOk};

use crate::digit::{digit, with_digit};
use crate::words::{copy_words, same_words, zero_words};
use base::NoMemory;
use std::alloc::Global;
use std::marker::Model;

/// The greatest number of a list of nibbles.
pub const MAX_NIBBLE: u8 = 15;

/// Bits of a nibble.
const BITS: u32 = 4;

/// Nibbles of a word.
const PER_WORD: usize = 16;

/// A list of numbers of at most [`MAX_NIBBLE`], 16 to a word. Its length is fixed.
#[derive(Drop)]
pub struct Nibbles {
    len: usize,
    words: Vec<u64>,
}

impl Model for Nibbles {
    ghost use Rattle.std.specs.Prelude.{List, ℕ};
    ghost use Rattle.packed_lists.specs.Digits.{unpacked, ArePacked};

    ghost Value = { List ℕ };

    ghost view = { λ n. unpacked 16 16 n.len n.words.items };

    ghost invariant = { λ n. ArePacked 16 16 n.len n.words.items };
}

impl Nibbles {
    /// So many zeros, at most 2^32. Out of memory is its only error.
    pub fn zeros(alloc: Global, len: u32) -> Result<Nibbles, NoMemory>
        ensures { IfOk result (λ nibbles. nibbles ≡ replicate len 0) }
    {
        let len = len as usize;
        let words = zero_words(alloc, (len + (PER_WORD - 1)) / PER_WORD)?;
        Ok(Nibbles { len, words })
    }

    /// The number at `i`, which is below the length.
    pub fn get(&self, i: usize) -> u8
        requires { i < length self.now }
        ensures value { slice_get self.now i ≡ Some result }
        ensures most { result ≤ MAX_NIBBLE }
    {
        digit(self.words[i / PER_WORD], BITS, (i % PER_WORD) as u32) as u8
    }

    /// Sets the number at `i`, which is below the length. The others stay.
    pub fn set(&mut self, i: usize, value: u8)
        requires within { i < length self.old }
        requires small { value ≤ MAX_NIBBLE }
        ensures { self.new ≡ slice_set self.old i value }
    {
        let word = i / PER_WORD;
        let place = (i % PER_WORD) as u32;
        self.words[word] = with_digit(self.words[word], BITS, place, u64::from(value));
    }

    /// Whether both hold the same.
    pub fn is_same(&self, other: &Self) -> bool
        ensures { IsTrue result ↔ (self.now ≡ other.now) }
    {
        self.len == other.len && same_words(self.words.as_slice(), other.words.as_slice())
    }

    /// Takes what another of its length holds. It takes no memory.
    pub fn copy_from(&mut self, other: &Self)
        requires { length self.old ≡ length other.now }
        ensures { self.new ≡ other.now }
    {
        copy_words(self.words.as_mut_slice(), other.words.as_slice());
    }
}
