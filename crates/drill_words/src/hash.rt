ghost use Rattle.std.specs.Prelude.{◌≡◌, ◌<◌, true};
ghost use Rattle.drill_words.specs.Hash.{is_hex_digit, hex_digit_value, hash_of_word};

/// How many hexadecimal digits a hash is written with.
pub const HASH_DIGITS: usize = 16;

/// The hash that a word writes. None where it isn't exactly 16 lower-case hexadecimal digits.
pub(crate) fn read_hash(word: &[u8]) -> Option<u64>
    ensures { result ≡ hash_of_word word.now }
{
    if word.len() != HASH_DIGITS {
        return None;
    }
    let mut value: u64 = 0;
    for byte in word {
        if !is_hex_digit(*byte) {
            return None;
        }
        value = value * 16 + u64::from(hex_digit_value(*byte));
    }
    Some(value)
}

/// A lower-case hexadecimal digit.
fn is_hex_digit(byte: u8) -> bool
    ensures { result ≡ is_hex_digit byte }
{
    byte.is_ascii_digit() || b'a' <= byte && byte <= b'f'
}

/// The value of a lower-case hexadecimal digit.
fn hex_digit_value(byte: u8) -> u8
    requires { is_hex_digit byte ≡ true }
    ensures value { result ≡ hex_digit_value byte }
    ensures below { result < 16 }
{
    if byte.is_ascii_digit() {
        byte - b'0'
    } else {
        byte - b'a' + 10
    }
}
