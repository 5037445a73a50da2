ghost use Rattle.std.specs.Prelude.{◌≡◌, IfOk, string_bytes};
ghost use Rattle.yaml_lines.specs.Reading.{unescape};

use crate::line::{find_escape, unescape};
use crate::text::Text;
use base::NoMemory;
use std::alloc::Global;
use std::rc::RcStr;
use std::str;

/// Where a part of a file's text begins.
#[derive(Clone, Copy)]
pub struct Origin<'a> {
    /// The whole text, where all of the file is UTF-8.
    pub whole: Option<&'a RcStr>,
    /// At which byte of it the part begins.
    pub start: usize,
}

impl<'a> Origin<'a> {
    /// Where `rest` begins, which is the end of `part`, where `part` begins here.
    pub fn of_rest(self, part: &[u8], rest: &[u8]) -> Origin<'a> {
        let cut = part.len().saturating_sub(rest.len());
        Origin {
            whole: self.whole,
            start: self.start.saturating_add(cut),
        }
    }

    /// The part with each `\#` made a `#`. Where it has none its bytes are shared, not copied.
    pub fn words(self, alloc: Global, part: &str) -> Result<Text, NoMemory>
        ensures { IfOk result (λ text. text ≡ unescape part.now) }
    {
        if find_escape(part.as_bytes()).is_none() {
            if let Some(whole) = self.whole {
                if let Some(text) = Text::find_in(whole, self.start, part)? {
                    return Ok(text);
                }
            }
        }
        Text::from_string(unescape(alloc, part)?)
    }
}

/// A copy of a file's text, where all of it is UTF-8.
pub fn whole_text(alloc: Global, bytes: &[u8]) -> Result<Option<RcStr>, NoMemory> {
    match str::from_utf8(bytes) {
        Ok(text) => Ok(Some(RcStr::from_str(alloc, text)?)),
        Err(_) => Ok(None),
    }
}
