ghost use Rattle.std.specs.Prelude.{◌≡◌, ℕ, ◌+◌, ◌-◌, ◌*◌, ◌<◌, ◌≤◌};
ghost use Rattle.twister.specs.Sequence.{seeding_step, tempered_of, twisted_of, word_of, x_of};
ghost use Rattle.twister.specs.Block.{HoldsFrom, IsRenewedTo};

use crate::twist::{seeding_word, twisted};

/// How many words a block has, and how many places back the recurrence reaches.
pub const LEN: usize = 624;

/// How far the other word of the recurrence lies ahead of the oldest.
const SHIFT: usize = 397;

/// The recurrences that define the sequence, as laws of its definition: its first word is the seed,
/// the next 623 are made by the seeding, and every later one by the twist of three words before it.
/// The words that are drawn are those from place 624 on, tempered. The call does nothing.
#[tactic(auto, unfolding(crate::specs::Sequence::word_of), using(crate::proofs::EarlierWords::sequence_laws))]
pub fn recurrences(seed: u32, i: u32, k: u64)
    ensures first { x_of seed 0 ≡ seed }
    ensures seeding { 0 < i → i < LEN → x_of seed i ≡ seeding_step (x_of seed (i - 1)) i }
    ensures twist { x_of seed (k + LEN) ≡ twisted_of (x_of seed (k + SHIFT)) (x_of seed k) (x_of
        seed (k + 1)) }
    ensures drawn { word_of seed k ≡ tempered_of (x_of seed (k + LEN)) }
{}

/// The first block of the sequence.
#[tactic(auto, using(crate::proofs::EarlierWords::x_first, crate::proofs::EarlierWords::x_seeding))]
pub fn first_block(seed: u32) -> [u32; LEN]
    ensures { HoldsFrom seed 0 result }
{
    let mut block = [seed; LEN];
    for i in 1..LEN {
        block[i] = seeding_word(block[i - 1], i as u32);
    }
    block
}

/// The block that follows so many others.
pub fn block_after(seed: u32, blocks: u64) -> [u32; LEN]
    ensures { HoldsFrom seed (LEN * blocks) result }
{
    let mut block = first_block(seed);
    for _made in 0..blocks {
        refill(&mut block);
    }
    block
}

/// The place of the next word in the block, once the block is refilled where all its words were
/// taken.
#[inline]
pub fn next_place(block: &mut [u32; LEN], at: usize) -> usize
    requires { at ≤ LEN }
    ensures place { result < LEN }
    ensures words { (seed base : ℕ) → HoldsFrom seed base block.old → HoldsFrom seed (base + at -
        result) block.new }
{
    if at < LEN {
        return at;
    }
    refill(block);
    0
}

/// Puts the next block of the sequence in place of this one.
fn refill(block: &mut [u32; LEN])
    ensures { (seed base : ℕ) → HoldsFrom seed base block.old → HoldsFrom seed (base + LEN)
        block.new }
{
    renew_front(block);
    renew_middle(block);
    block[LEN - 1] = twisted(block[SHIFT - 1], block[LEN - 1], block[0]);
}

/// Renews the words whose other word is still one of the old block.
fn renew_front(block: &mut [u32; LEN])
    ensures { (seed base : ℕ) → HoldsFrom seed base block.old → IsRenewedTo seed base (LEN - SHIFT)
        block.new }
{
    for k in 0..LEN - SHIFT {
        block[k] = twisted(block[k + SHIFT], block[k], block[k + 1]);
    }
}

/// Renews the words whose other word is one of the new block, but for the last.
fn renew_middle(block: &mut [u32; LEN])
    ensures { (seed base : ℕ) → IsRenewedTo seed base (LEN - SHIFT) block.old → IsRenewedTo seed
        base (LEN - 1) block.new }
{
    for k in LEN - SHIFT..LEN - 1 {
        block[k] = twisted(block[k - (LEN - SHIFT)], block[k], block[k + 1]);
    }
}
