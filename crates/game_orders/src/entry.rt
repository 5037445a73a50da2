ghost use Rattle.std.specs.Prelude.{◌≡◌};
ghost use Rattle.game_orders.specs.Entry.{is_play};

use crate::orders::Orders;

/// What a client did for one frame. As an entry of a column, a Leave is the client's departure,
/// once for all; as an entry of a frame, it means that the client has departed.
#[derive(Debug, Drop)]
pub enum Entry {
    /// The client's orders for the frame, perhaps none.
    Play(Orders),
    /// The client has left.
    Leave,
}

impl Entry {
    /// The same entry once more.
    pub fn copy(&self) -> Entry
        ensures { result ≡ self.now }
    {
        match self {
            Entry::Play(orders) => Entry::Play(orders.copy()),
            Entry::Leave => Entry::Leave,
        }
    }

    /// True where the entry is a play, of any orders.
    pub fn is_play(&self) -> bool
        ensures { result ≡ is_play self.now }
    {
        match self {
            Entry::Play(_) => true,
            Entry::Leave => false,
        }
    }
}

impl PartialEq for Entry {
    ghost use Rattle.game_orders.specs.Entry.{same_entry};
    ghost use Rattle.game_orders.specs.EntryEquality.{entry_decides};
    ghost use Rattle.std.specs.Cmp.{decided, partial_equiv_from_equiv};

    ghost eq = { same_entry };

    ghost laws = { partial_equiv_from_equiv (decided same_entry entry_decides) };

    fn eq(&self, other: &Entry) -> bool {
        match (self, other) {
            (Entry::Play(orders), Entry::Play(others)) => orders == others,
            (Entry::Leave, Entry::Leave) => true,
            _ => false,
        }
    }
}

impl Eq for Entry {
    ghost use Rattle.game_orders.specs.Entry.{same_entry};
    ghost use Rattle.game_orders.specs.EntryEquality.{entry_decides};
    ghost use Rattle.std.specs.Cmp.{decided};

    ghost laws = { decided same_entry entry_decides };
}

/// The departure, which fills the unused room of a frame.
impl Default for Entry {
    ghost use Rattle.std.specs.Prelude.{◌≡◌};
    ghost use Rattle.game_orders.specs.declared.entry.Entry.TheVariants.{Leave};

    ghost is_default = { λ e. e ≡ Leave };

    fn default() -> Self {
        Entry::Leave
    }
}
