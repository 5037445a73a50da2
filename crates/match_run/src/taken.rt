ghost use Rattle.std.specs.Prelude.{◌≡◌, ◌<◌, ◌≤◌, ◌-◌, [], ◌∷◌, ◌++◌, ◌==◌, false, nat_lt, length};
ghost use Rattle.game_orders.specs.declared.limits.TheConstants.{MAX_CLIENTS};
ghost use Rattle.std.specs.Bool.{OnTrue};
ghost use Rattle.match_run.specs.Taken.{HasEntry, entry_taken};

use frame_core::PlayList;
use game_orders::{Entry, Frame};
use std::alloc::Global;

/// What the ticking thread has taken of one client's column.
#[derive(Drop)]
pub(crate) struct Taken {
    /// The frame of the first play.
    pub from: u32,
    /// Plays, frame by frame.
    pub plays: PlayList,
    /// Whether the client had left by frame `from`. Then there are no plays.
    pub left: bool,
}

impl Taken {
    /// Nothing yet.
    pub(crate) fn new(alloc: Global) -> Taken
        ensures from { result.from ≡ 0 }
        ensures plays { result.plays ≡ [] }
        ensures left { result.left ≡ false }
    {
        Taken {
            from: 0,
            plays: PlayList::new(alloc),
            left: false,
        }
    }

    /// Holds these plays, the first of which is that of frame `from`, in place of what it held.
    /// Where there are none the client had left by then.
    pub(crate) fn hold(&mut self, from: u32, plays: PlayList)
        ensures from { self.new.from ≡ from }
        ensures plays { self.new.plays ≡ plays }
        ensures left { self.new.left ≡ (length plays == 0) }
    {
        let left = plays.len() == 0;
        *self = Taken { from, plays, left };
    }

    /// Whether a play at frame `n` was taken, which is not below `from`.
    pub(crate) fn has_play(&self, n: u32) -> bool
        requires { self.now.from ≤ n }
        ensures { result ≡ nat_lt (n - self.now.from) (length self.now.plays) }
    {
        ((n - self.from) as usize) < self.plays.len()
    }

    /// Whether the entry at frame `n` was taken, which is not below `from`: a play, or a departure.
    pub(crate) fn has_entry(&self, n: u32) -> bool
        requires { self.now.from ≤ n }
        ensures { OnTrue result (HasEntry self.now n) }
    {
        self.left || self.has_play(n)
    }

    /// Adds the entry at frame `n`, which is not below `from`, to a frame with room for it: the
    /// play that was taken, or a departure.
    pub(crate) fn add_to(&self, n: u32, frame: &mut Frame)
        requires from { self.now.from ≤ n }
        requires room { length frame.old < MAX_CLIENTS }
        ensures { frame.new ≡ frame.old ++ entry_taken self.now n ∷ [] }
    {
        if self.has_play(n) {
            frame.push_play(self.plays.play((n - self.from) as usize));
        } else {
            frame.push(Entry::Leave);
        }
    }
}
