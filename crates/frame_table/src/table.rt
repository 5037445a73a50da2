ghost use Rattle.std.specs.Prelude.{◌≡◌, ◌≤◌, length};
ghost use Rattle.game_orders.specs.declared.limits.TheConstants.{MAX_CLIENTS};

use crate::plan::Plan;
use crate::rule::Rule;
use crate::view::View;
use atomic_table::Table;
use frame_core::Columns;
use game_orders::MAX_CLIENTS;
use std::alloc::Global;

/// One word for each client that there can be.
pub(crate) const WORDS: usize = MAX_CLIENTS as usize;

/// The columns of a match, shared by threads. It is used through a `&` by any number of them, each
/// with a pass of this table. `whole` is empty until `close` fills it, so that `close` takes no
/// memory.
#[derive(Drop)]
pub struct FrameTable {
    pub(crate) inner: Table<Option<Columns>, View, Plan, Rule, Global>,
    pub(crate) whole: Columns,
    ghost words: { inner.shared.table_id.words ≡ MAX_CLIENTS },
    ghost slots: { inner.shared.table_id.slots ≡ length inner.shared.key },
    ghost columns: { length whole ≡ length inner.shared.key },
    ghost least: { 1 ≤ length inner.shared.key },
    ghost most: { length inner.shared.key ≤ MAX_CLIENTS },
}
