ghost use Rattle.std.specs.Prelude.{◌≡◌, ◌-◌, ◌^◌, ◌<◌, ◌≤◌};
ghost use Rattle.twister.specs.Sequence.{draw_of};
ghost use Rattle.twister.specs.Place.{word_at, after_word};

use crate::block::{LEN, block_after, first_block, next_place};
use crate::twist::tempered;
use std::marker::Model;

/// What a word is taken modulo before a draw below a bound: 2^31 - 1.
const DRAW_MODULUS: u32 = 2_147_483_647;

/// A place in the sequence of random words of a seed.
#[derive(Drop)]
pub struct Twister {
    block: [u32; LEN],
    /// The place in the block of the next word.
    at: usize,
    seed: u32,
    drawn: u64,
}

impl Model for Twister {
    ghost use Rattle.twister.specs.Place.{Place};

    ghost Value = { Place };

    ghost use Rattle.std.specs.Prelude.{◌+◌, ◌-◌, ◌≤◌};
    ghost use Rattle.twister.specs.Block.{HoldsFrom};

    ghost view = { λ t. record { seed = t.seed; drawn = t.drawn } };

    ghost invariant = { λ t. (t.at ≤ 624) × HoldsFrom t.seed (t.drawn + 624 - t.at) t.block };
}

impl Twister {
    /// The beginning of the sequence of a seed.
    pub fn seeded(seed: u32) -> Self
        ensures { result ≡ record { seed = seed; drawn = 0 } }
    {
        Twister {
            block: first_block(seed),
            at: LEN,
            seed,
            drawn: 0,
        }
    }

    /// The place after so many words of the sequence of a seed: what [`Twister::seeded`] gives, once
    /// that many words were drawn. It takes no memory, and makes a block for each 624 of these words.
    pub fn at(seed: u32, drawn: u64) -> Self
        ensures { result ≡ record { seed = seed; drawn = drawn } }
    {
        let whole = drawn / LEN as u64;
        Twister {
            block: block_after(seed, whole + 1),
            at: (drawn % LEN as u64) as usize,
            seed,
            drawn,
        }
    }

    /// How many words were drawn.
    pub fn drawn(&self) -> u64
        ensures { result ≡ self.now.drawn }
    {
        self.drawn
    }

    /// Draws the next word: any number of 32 bits. Only where fewer than 2^64 - 1 words were drawn
    /// so far.
    #[inline]
    #[tactic(auto, unfolding(crate::specs::Sequence::word_of))]
    pub fn next_word(&mut self) -> u32
        requires { self.old.drawn < 2 ^ 64 - 1 }
        ensures word { result ≡ word_at self.old }
        ensures after { self.new ≡ after_word self.old }
    {
        let place = next_place(&mut self.block, self.at);
        let word = tempered(self.block[place]);
        self.at = place + 1;
        self.drawn += 1;
        word
    }

    /// Draws one word for a number below `m`: the word modulo 2^31 - 1, and that modulo `m`. `m` is
    /// at least 1, and fewer than 2^64 - 1 words were drawn so far.
    pub fn below(&mut self, m: u32) -> u32
        requires bound { 1 ≤ m }
        requires more { self.old.drawn < 2 ^ 64 - 1 }
        ensures value { result ≡ draw_of self.old.seed self.old.drawn m }
        ensures below { result < m }
        ensures after { self.new ≡ after_word self.old }
    {
        self.next_word() % DRAW_MODULUS % m
    }
}
