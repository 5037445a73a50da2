ghost use Rattle.std.specs.Prelude.{◌≡◌, ◌<◌, length};
ghost use Rattle.rule_values.specs.NameList.{names_of, with_name};
ghost use Rattle.yaml_lines.specs.Blanks.{trim};

use crate::parts::cut;
use yaml_lines::trim;

/// The names of a list that are still to come. See `names`.
#[derive(Clone, Copy, Debug)]
pub struct Names<'a> {
    pub(crate) rest: &'a str,
}

impl<'a> Iterator for Names<'a> {
    type Item = &'a str;

    ghost use Rattle.std.specs.Iterator.{item_count, YieldsFirstRef};
    ghost use Rattle.rule_values.specs.NameList.{names_left};

    ghost next_gives = { YieldsFirstRef names_left };

    ghost remaining = { item_count names_left };

    #[tactic(auto, using(crate::proofs::NameListLemmas::name_steps))]
    fn next(&mut self) -> Option<&'a str> {
        while !self.rest.is_empty() {
            let (part, rest) = first_part(self.rest);
            self.rest = rest;
            let name = trim(part);
            if !name.is_empty() {
                return Some(name);
            }
        }
        None
    }
}

/// The text before the first comma and the text after it, or all of the text and nothing where
/// there is none.
#[tactic(auto, using(crate::proofs::NameListLemmas::comma_steps))]
fn first_part(text: &str) -> (&str, &str)
    requires { 0 < length text.now }
    ensures names { names_of text.now ≡ with_name (trim result.0.now) (names_of result.1.now) }
    ensures shorter { length result.1.now < length text.now }
{
    match cut(text, ',') {
        Some(parts) => parts,
        None => (text, ""),
    }
}
