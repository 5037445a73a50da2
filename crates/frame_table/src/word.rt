ghost use Rattle.std.specs.Prelude.{◌≡◌, ◌≤◌, ◌/◌, [], ◌∷◌, false};
ghost use Rattle.game_orders.specs.declared.limits.TheConstants.{MAX_FRAMES};
ghost use Rattle.frame_core.specs.Column.{Column};
ghost use Rattle.frame_table.specs.Word.{word_of, seen_of};

use crate::seen::Seen;
use frame_core::Columns;

/// The word of one column whose lock is free.
pub(crate) fn word(column: &Columns) -> u64
    requires { (K : Column) × (column.now ≡ K ∷ []) }
    ensures { (K : Column) → column.now ≡ K ∷ [] → result ≡ word_of K false }
{
    let left = if column.left(0) { 2 } else { 0 };
    u64::from(column.plays(0)) * 4 + left
}

/// How much of the column its word shows.
pub(crate) fn seen(word: u64) -> Seen
    requires { word / 4 ≤ MAX_FRAMES }
    ensures { result ≡ seen_of word }
{
    Seen {
        plays: (word / 4) as u32,
        left: word / 2 % 2 == 1,
    }
}
