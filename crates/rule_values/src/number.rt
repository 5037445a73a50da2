ghost use Rattle.std.specs.Prelude.{◌≡◌, ◌^◌, ◌<◌, IfSome};
ghost use Rattle.base.specs.Numbers.{number_of};
ghost use Rattle.rule_values.specs.Distances.{dist_of};

use crate::parts::cut;

/// How many units a cell is wide.
const CELL: u64 = 1024;

/// The number that a text of one to ten decimal digits writes, which is below 10^10. `None` comes
/// exactly where the text is not of this form.
pub fn read_number(text: &str) -> Option<u64>
    ensures value { result ≡ number_of text.now }
    ensures small { IfSome result (λ n. n < 10 ^ 10) }
{
    base::read_number(text.as_bytes())
}

/// The distance in units that a text writes: a number of units, or `4c768`, which is 4 cells of
/// 1024 units and 768 units. `None` comes exactly where the text is not of one of these two forms.
#[tactic(auto, unfolding(crate::specs::Distances::dist_of))]
pub fn read_dist(text: &str) -> Option<u64>
    ensures { result ≡ dist_of text.now }
{
    match cut(text, 'c') {
        None => read_number(text),
        Some((cells, units)) => Some(CELL * read_number(cells)? + read_number(units)?),
    }
}
