ghost use Rattle.std.specs.Prelude.{◌≡◌};
ghost use Rattle.twister.specs.Sequence.{seeding_step, tempered_of, twisted_of};

/// The factor of the seeding.
const SEEDING_FACTOR: u32 = 1_812_433_253;

/// The top bit of a word.
const TOP_BIT: u32 = 0x8000_0000;

/// All bits of a word but the top one.
const LOW_BITS: u32 = 0x7fff_ffff;

/// The last row of the recurrence's matrix.
const MATRIX: u32 = 0x9908_b0df;

/// The mask of the tempering's second step.
const MASK_B: u32 = 0x9d2c_5680;

/// The mask of its third step.
const MASK_C: u32 = 0xefc6_0000;

/// The word at place `i` of the seeding, from the word before it.
#[tactic(auto, unfolding(crate::specs::Sequence::seeding_step))]
pub fn seeding_word(before: u32, i: u32) -> u32
    ensures { result ≡ seeding_step before i }
{
    SEEDING_FACTOR
        .wrapping_mul(before ^ (before >> 30))
        .wrapping_add(i)
}

/// The word 624 places after `upper`, from the word 397 places after it and the one next to it.
#[inline]
#[tactic(auto, unfolding(crate::specs::Sequence::twisted_of))]
pub fn twisted(far: u32, upper: u32, lower: u32) -> u32
    ensures { result ≡ twisted_of far upper lower }
{
    let y = (upper & TOP_BIT) | (lower & LOW_BITS);
    let odd = if y % 2 == 1 { MATRIX } else { 0 };
    far ^ (y >> 1) ^ odd
}

/// The word that is given for a word of the sequence.
#[inline]
#[tactic(auto, unfolding(crate::specs::Sequence::tempered_of))]
pub fn tempered(word: u32) -> u32
    ensures { result ≡ tempered_of word }
{
    let mut y = word;
    y ^= y >> 11;
    y ^= (y << 7) & MASK_B;
    y ^= (y << 15) & MASK_C;
    y ^ (y >> 18)
}
