ghost use Rattle.std.specs.Prelude.{◌≡◌, ◌≤◌, [], IfOk, IfSome, nat_eq, slice_range, string_bytes};
ghost use Rattle.std.specs.Cmp.{partial_equiv_from_equiv};
ghost use Rattle.std.specs.Cmp.Lexicographic.{pointwise, nat_list_eq_equiv};
ghost use Rattle.std.specs.Cmp.Rules.{hashing};
ghost use Rattle.std.specs.Hash as fed;
ghost use Rattle.std.proofs.Common.{rules};
ghost use Rattle.std.specs.Rc.{rc_str_bytes};
ghost use Rattle.std.specs.Str.{IsCharBoundary};

use base::NoMemory;
use std::alloc::{AllocError, Global};
use std::hash::{Hash, Hasher};
use std::marker::Model;
use std::rc::RcStr;

/// A key or a value of a node, seen as its UTF-8 bytes: a part of a text that others hold a part of
/// as well, as all keys and values of a file do. Its copies share that text.
#[derive(Drop)]
pub struct Text {
    whole: Option<RcStr>,
    start: u32,
    end: u32,
}

impl Model for Text {
    ghost use Rattle.std.specs.Prelude.{◌≤◌, ℕ, List, [], option_map, unwrap_or, slice_range};
    ghost use Rattle.std.specs.Rc.{rc_str_bytes};
    ghost use Rattle.std.specs.Str.{IsCharBoundary};

    ghost Value = { List ℕ };

    ghost view = { λ text. slice_range (unwrap_or (option_map rc_str_bytes text.whole) []) text.start text.end };

    ghost invariant = { λ text.
        (text.start ≤ text.end)
        × IsCharBoundary (unwrap_or (option_map rc_str_bytes text.whole) []) text.start
        × IsCharBoundary (unwrap_or (option_map rc_str_bytes text.whole) []) text.end };
}

impl Text {
    /// The empty text, which takes no memory.
    fn empty() -> Text
        ensures { result ≡ [] }
    {
        Text {
            whole: None,
            start: 0,
            end: 0,
        }
    }

    /// The text of a string, whose bytes are not copied. The empty text takes no memory.
    pub fn from_string(held: String) -> Result<Text, NoMemory>
        ensures { IfOk result (λ text. text ≡ string_bytes held) }
    {
        if held.is_empty() {
            return Ok(Text::empty());
        }
        let Ok(end) = u32::try_from(held.len()) else {
            return Err(AllocError);
        };
        let whole = RcStr::from_string(held)?;
        Ok(Text {
            whole: Some(whole),
            start: 0,
            end,
        })
    }

    /// The part of a text that reads like this one and begins at a byte of it, if it does.
    pub fn find_in(whole: &RcStr, start: usize, part: &str) -> Result<Option<Text>, NoMemory>
        ensures { IfOk result (λ found. IfSome found (λ text. text ≡ part.now)) }
    {
        if part.is_empty() {
            return Ok(Some(Text::empty()));
        }
        let text = whole.as_str();
        let Some(end) = start.checked_add(part.len()) else {
            return Ok(None);
        };
        if !text.is_char_boundary(start) || !text.is_char_boundary(end) {
            return Ok(None);
        }
        if text[start..end].as_bytes() != part.as_bytes() {
            return Ok(None);
        }
        Text::part_of(whole, start, end)
    }

    /// The part of a text between two places, where both lie within the first 4 GiB.
    fn part_of(whole: &RcStr, start: usize, end: usize) -> Result<Option<Text>, NoMemory>
        requires order { start ≤ end }
        requires start { IsCharBoundary (rc_str_bytes whole.now) start }
        requires end { IsCharBoundary (rc_str_bytes whole.now) end }
        ensures { IfOk result (λ found. IfSome found (λ text. text ≡ slice_range (rc_str_bytes whole.now) start end)) }
    {
        let (Ok(start), Ok(end)) = (u32::try_from(start), u32::try_from(end)) else {
            return Ok(None);
        };
        let whole = whole.clone()?;
        Ok(Some(Text {
            whole: Some(whole),
            start,
            end,
        }))
    }

    /// A text that reads like this one. Where the text ends with it, its bytes are not copied.
    pub fn ending(&self, alloc: Global, part: &str) -> Result<Text, NoMemory>
        ensures { IfOk result (λ text. text ≡ part.now) }
    {
        if let Some(whole) = &self.whole {
            let start = (self.end as usize).saturating_sub(part.len());
            if let Some(text) = Text::find_in(whole, start, part)? {
                return Ok(text);
            }
        }
        Text::from_string(String::from_str(alloc, part)?)
    }

    /// The text as a `&str`.
    pub fn as_str(&self) -> &str
        ensures { result.now ≡ self.now }
    {
        match &self.whole {
            Some(whole) => &whole.as_str()[self.start as usize..self.end as usize],
            None => "",
        }
    }

    /// The same text, whose bytes are not copied.
    pub fn copy(&self) -> Result<Text, NoMemory>
        ensures { IfOk result (λ text. text ≡ self.now) }
    {
        match &self.whole {
            Some(whole) => {
                let whole = whole.clone()?;
                Ok(Text {
                    whole: Some(whole),
                    start: self.start,
                    end: self.end,
                })
            }
            None => Ok(Text::empty()),
        }
    }
}

impl PartialEq for Text {
    ghost eq = { pointwise nat_eq };

    ghost laws = { partial_equiv_from_equiv nat_list_eq_equiv };

    fn eq(&self, other: &Self) -> bool {
        self.as_str() == other.as_str()
    }
}

impl Eq for Text {
    ghost laws = { nat_list_eq_equiv };
}

impl Hash for Text {
    ghost hash_input = { fed.str };

    ghost respects_eq = { Prim.search (hashing, rules) };

    fn hash<H: Hasher>(&self, state: &mut H) {
        self.as_str().hash(state);
    }
}
