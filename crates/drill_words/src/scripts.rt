ghost use Rattle.std.specs.Prelude.{◌≡◌, ◌≤◌, ◌<◌, [], length, replicate, IfOk, OnOk, OnErr};
ghost use Rattle.drill_words.specs.Scripts.{plays_of, with_play};
ghost use Rattle.game_orders.specs.declared.limits.TheConstants.{MAX_CLIENTS, MAX_FRAMES};

use base::NoMemory;
use frame_core::PlayList;
use game_orders::{MAX_CLIENTS, Orders};
use std::alloc::Global;
use std::marker::Model;

/// What each client of a match plays, by rising client: its orders frame by frame from 0, at most
/// `MAX_FRAMES` frames. There are 1 to `MAX_CLIENTS` clients. A play takes 8 bytes, and each of its
/// orders 12.
pub struct Scripts {
    each: Vec<PlayList>,
}

// By hand, so that what drops one needs no proof of how its parts are dropped.
impl Drop for Scripts {
    fn drop(self) {
        let Self { each: _ } = self;
    }
}

impl Model for Scripts {
    ghost use Rattle.std.specs.Prelude.{List as Elements, ◌≤◌, length};
    ghost use Rattle.game_orders.specs.declared.order.Order.{Order};
    ghost use Rattle.game_orders.specs.declared.limits.TheConstants.{MAX_CLIENTS};
    ghost use Rattle.drill_words.specs.Scripts.{AreWithinFrames};

    ghost Value = { Elements (Elements (Elements Order)) };

    ghost view = { λ scripts. scripts.each.items };

    ghost invariant = { λ scripts. (1 ≤ length scripts.each.items) × (length scripts.each.items ≤
        MAX_CLIENTS) × AreWithinFrames scripts.each.items };
}

impl Scripts {
    /// Scripts without plays, of 1 to `MAX_CLIENTS` clients. It fails only where it is out of
    /// memory.
    pub fn create(alloc: Global, clients: u8) -> Result<Scripts, NoMemory>
        requires least { 1 ≤ clients }
        requires most { clients ≤ MAX_CLIENTS }
        ensures { IfOk result (λ scripts. scripts ≡ replicate clients []) }
    {
        let mut each = Vec::new(alloc);
        for _client in 0..clients {
            each.push(PlayList::new(alloc))?;
        }
        Ok(Scripts { each })
    }

    /// The number of clients, 1 to `MAX_CLIENTS`.
    pub fn clients(&self) -> u8
        ensures value { result ≡ length self.now }
        ensures least { 1 ≤ result }
        ensures most { result ≤ MAX_CLIENTS }
    {
        self.each.len() as u8
    }

    /// Adds a play of client `c`, which is below the number of clients and plays fewer than
    /// `MAX_FRAMES` frames before. It fails only where it is out of memory, and then nothing
    /// changes.
    pub fn push(&mut self, c: u8, orders: Orders) -> Result<(), NoMemory>
        requires client { c < length self.old }
        requires room { length (plays_of self.old c) < MAX_FRAMES }
        ensures ok { OnOk result (self.new ≡ with_play self.old c orders) }
        ensures err { OnErr result (self.new ≡ self.old) }
    {
        self.push_lent(c, &orders)
    }

    /// Adds a play as `push` does, of orders that are lent.
    pub(crate) fn push_lent(&mut self, c: u8, orders: &Orders) -> Result<(), NoMemory>
        requires client { c < length self.old }
        requires room { length (plays_of self.old c) < MAX_FRAMES }
        ensures ok { OnOk result (self.new ≡ with_play self.old c orders.now) }
        ensures err { OnErr result (self.new ≡ self.old) }
    {
        self.each[c as usize].push(orders)
    }

    /// What client `c`, which is below the number of clients, plays, frame by frame from 0.
    pub fn plays(&self, c: u8) -> &PlayList
        requires { c < length self.now }
        ensures value { result.now ≡ plays_of self.now c }
        ensures limit { length result.now ≤ MAX_FRAMES }
    {
        &self.each[c as usize]
    }
}
