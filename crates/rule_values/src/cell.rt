ghost use Rattle.std.specs.Prelude.{◌≡◌};
ghost use Rattle.rule_values.specs.Cells.{cell_of, coordinate_of};

use crate::number::read_number;
use crate::parts::cut;
use yaml_lines::trim;

/// The column and the row that a text like `12,7` writes: two numbers up to 255 with a comma
/// between them, and blanks round each allowed. `None` comes exactly where the text is not of this
/// form.
#[tactic(auto, unfolding(crate::specs::Cells::cell_of))]
pub fn read_cell(text: &str) -> Option<(u8, u8)>
    ensures { result ≡ cell_of text.now }
{
    let (x, y) = cut(text, ',')?;
    Some((coordinate(x)?, coordinate(y)?))
}

/// A number up to 255 with blanks round it allowed.
#[tactic(auto, unfolding(crate::specs::Cells::coordinate_of))]
fn coordinate(text: &str) -> Option<u8>
    ensures { result ≡ coordinate_of text.now }
{
    let number = read_number(trim(text))?;
    u8::try_from(number).ok()
}
