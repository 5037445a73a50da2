ghost use Rattle.std.specs.Prelude.{◌≡◌};
ghost use Rattle.rule_values.specs.NameList.{names_left, names_of};

use crate::name_list::Names;

/// The names of a list: the parts of the text between its commas, trimmed of blanks, without the
/// empty ones.
pub fn names(text: &str) -> Names<'_>
    ensures { names_left result ≡ names_of text.now }
{
    Names { rest: text }
}
