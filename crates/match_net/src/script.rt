ghost use Rattle.std.specs.Prelude.{length, slice_index_or, []};

use crate::order_source::OrderSource;
use base::NoMemory;
use frame_core::Sim;
use game_orders::Orders;

/// A player's script: its orders, frame by frame.
#[derive(Clone, Copy)]
pub struct Script<'a> {
    /// The orders of each frame, from 0 on.
    pub plays: &'a [Orders],
}

impl<'a, S: Sim> OrderSource<S> for Script<'a> {
    ghost frames_of = { λ script. length script.plays.now };

    ghost orders_of = { λ script world client n. slice_index_or script.plays.now n [] };

    fn frames(&self) -> usize {
        self.plays.len()
    }

    fn orders(&self, _sim: &S, _c: u8, n: usize) -> Result<Orders, NoMemory> {
        Ok(self.plays[n].copy())
    }
}
