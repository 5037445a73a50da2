ghost use Rattle.std.specs.Prelude.{◌≡◌, ◌<◌, ◌≤◌, ◌-◌, ◌==◌, true, false, length, take};
ghost use Rattle.yaml_lines.specs.Blanks.{blank_len, trim_start, trim_end, trim, is_blank_byte};
ghost use Rattle.yaml_lines.specs.Blanks.{last_blank_len, ends_blank, begins_blank};

/// A blank of one byte: space, tab or carriage return.
fn is_blank_byte(byte: u8) -> bool
    ensures { result ≡ is_blank_byte byte }
{
    byte == b' ' || byte == b'\t' || byte == b'\r'
}

/// How many bytes the blank has with which the text begins: 0 where it begins with none.
fn blank_len(text: &[u8]) -> usize
    ensures same { result ≡ blank_len text.now }
    ensures within { result ≤ length text.now }
{
    match text {
        [byte, ..] if is_blank_byte(*byte) => 1,
        [0xef, 0xbb, 0xbf, ..] => 3,
        _ => 0,
    }
}

/// Whether the text begins with a blank.
pub fn begins_blank(text: &[u8]) -> bool
    ensures { result ≡ begins_blank text.now }
{
    blank_len(text) > 0
}

/// The text without the blanks at its start.
#[tactic(auto, using(crate::proofs::BlankSteps::start_steps))]
pub fn trim_start(text: &str) -> &str
    ensures { result.now ≡ trim_start text.now }
{
    let mut rest = text;
    loop {
        let len = blank_len(rest.as_bytes());
        if len == 0 {
            return rest;
        }
        rest = &rest[len..];
    }
}

/// How many bytes the blank has with which the text ends: 0 where it ends with none.
#[tactic(auto, unfolding(crate::specs::Blanks::last_blank_len))]
fn last_blank_len(text: &[u8]) -> usize
    ensures { result ≡ last_blank_len text.now }
{
    let len = text.len();
    if len > 0 && is_blank_byte(text[len - 1]) {
        return 1;
    }
    if len >= 3 && text[len - 3] == 0xef && text[len - 2] == 0xbb && text[len - 1] == 0xbf {
        return 3;
    }
    0
}

/// Whether the text ends with a blank.
#[tactic(auto, using(crate::proofs::BlankEnds::end_steps))]
pub fn ends_blank(text: &[u8]) -> bool
    ensures { result ≡ ends_blank text.now }
{
    last_blank_len(text) > 0
}

/// The text without the blanks at its end.
#[tactic(auto, using(crate::proofs::BlankEnds::end_steps))]
pub fn trim_end(text: &str) -> &str
    ensures { result.now ≡ trim_end text.now }
{
    let mut rest = text;
    loop {
        let len = last_blank_len(rest.as_bytes());
        if len == 0 {
            return rest;
        }
        rest = &rest[..rest.len() - len];
    }
}

/// The text without the blanks at both ends. A blank is a space, a tab, a carriage return or the
/// character U+FEFF.
pub fn trim(text: &str) -> &str
    ensures { result.now ≡ trim text.now }
{
    trim_end(trim_start(text))
}
