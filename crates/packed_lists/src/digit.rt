ghost use Rattle.std.specs.Prelude.{◌≡◌, ◌+◌, ◌*◌, ◌^◌, ◌%◌, ◌<◌, ◌≤◌};
ghost use Rattle.packed_lists.specs.Digits.{digit, with_digit};

/// The digit of so many bits at a place of a word, from the lowest on.
pub(crate) fn digit(word: u64, bits: u32, place: u32) -> u64
    requires narrow { bits < 64 }
    requires within { bits * place + bits ≤ 64 }
    requires some { 1 ≤ bits }
    ensures value { result ≡ digit (2 ^ bits) place word }
    ensures small { result < 2 ^ bits }
{
    (word >> (bits * place)) & ((1 << bits) - 1)
}

/// The word with another digit of so many bits at a place.
pub(crate) fn with_digit(word: u64, bits: u32, place: u32, value: u64) -> u64
    requires narrow { bits < 64 }
    requires within { bits * place + bits ≤ 64 }
    requires some { 1 ≤ bits }
    requires whole { 64 % bits ≡ 0 }
    requires small { value < 2 ^ bits }
    ensures { result ≡ with_digit (2 ^ bits) place word value }
{
    let was = digit(word, bits, place);
    let shift = bits * place;
    word - (was << shift) + (value << shift)
}
