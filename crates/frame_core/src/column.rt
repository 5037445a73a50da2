ghost use Rattle.std.specs.Prelude.{◌≡◌, ◌<◌, ◌≤◌, ◌++◌, ◌∷◌, [], true, length};
ghost use Rattle.std.specs.Prelude.{OnOk, OnErr, IfOk, IfSome};
ghost use Rattle.game_orders.specs.declared.entry.Entry.TheVariants.{Play, Leave};
ghost use Rattle.game_orders.specs.declared.limits.TheConstants.{MAX_ORDERS};
ghost use Rattle.game_orders.specs.Entry.{is_play, same_entry};
ghost use Rattle.std.specs.Option.{option_copied};
ghost use Rattle.frame_core.specs.Input.{input_of};
ghost use Rattle.frame_core.specs.Ready.{or_leave};
ghost use Rattle.frame_core.specs.Column.{length_of, entry_at, has_at, put_answer, put_column};
ghost use Rattle.frame_core.specs.Column.{no_column, with_entry, leave_answer, left_column};

use crate::input::Input;
use crate::leaving::Leaving;
use crate::put::Put;
use crate::stored_plays::StoredPlays;
use base::NoMemory;
use game_orders::{Entry, Frame, MAX_CLIENTS, MAX_FRAMES, Order};
use std::alloc::Global;
use std::marker::Model;

/// One client's plays, then perhaps its departure.
#[derive(Drop)]
pub(crate) struct StoredColumn {
    plays: StoredPlays,
    has_left: bool,
    // a departure, to be lent where it stands
    leave: Entry,
}

impl Model for StoredColumn {
    ghost use Rattle.frame_core.specs.Column.{Column};
    ghost use Rattle.game_orders.specs.declared.entry.Entry.TheVariants.{Leave};
    ghost use Rattle.game_orders.specs.declared.limits.TheConstants.{MAX_FRAMES};
    ghost use Rattle.std.specs.Prelude.{◌≡◌, ◌≤◌, length};

    ghost Value = { Column };

    ghost view = { λ c. record { plays = c.plays; left = c.has_left } };

    ghost invariant = { λ c. (c.leave ≡ Leave) × (length c.plays ≤ MAX_FRAMES) };
}

impl StoredColumn {
    /// A column without plays.
    pub(crate) fn new(alloc: Global) -> StoredColumn
        ensures { result ≡ no_column }
    {
        StoredColumn {
            plays: StoredPlays::new(alloc),
            has_left: false,
            leave: Entry::Leave,
        }
    }

    /// The number of plays.
    pub(crate) fn plays(&self) -> u32
        ensures value { result ≡ length_of self.now }
        ensures limit { result ≤ MAX_FRAMES }
    {
        self.plays.len() as u32
    }

    /// Whether the departure stands.
    pub(crate) fn has_left(&self) -> bool
        ensures { result ≡ self.now.left }
    {
        self.has_left
    }

    /// The entry that stands at frame `n`.
    pub(crate) fn entry(&self, n: u32) -> Option<&Entry>
        ensures { option_copied result ≡ entry_at self.now n }
    {
        if let Some(play) = self.plays.get(n as usize) {
            return Some(play);
        }
        if !self.has_left {
            return None;
        }
        if n as usize != self.plays.len() {
            return None;
        }
        Some(&self.leave)
    }

    /// Puts an entry at frame `n`. Out of memory, its one error, it changes nothing.
    pub(crate) fn put(&mut self, n: u32, e: Entry) -> Result<Put, NoMemory>
        ensures answer { IfOk result (λ put. put ≡ put_answer self.old n e) }
        ensures after { OnOk result (self.new ≡ put_column self.old n e) }
        ensures err { OnErr result (self.new ≡ self.old) }
    {
        match &e {
            Entry::Play(orders) => self.put_play(n, orders.as_slice()),
            Entry::Leave => Ok(self.put_leave(n)),
        }
    }

    /// Puts a play at frame `n`. Out of memory, its one error, it changes nothing.
    pub(crate) fn put_play(&mut self, n: u32, orders: &[Order]) -> Result<Put, NoMemory>
        requires { length orders.now ≤ MAX_ORDERS }
        ensures answer { IfOk result (λ put. put ≡ put_answer self.old n (Play orders.now)) }
        ensures after { OnOk result (self.new ≡ put_column self.old n (Play orders.now)) }
        ensures err { OnErr result (self.new ≡ self.old) }
    {
        if let Some(kept) = self.entry(n) {
            if is_play_of(kept, orders) {
                return Ok(Put::Repeat);
            }
            return Ok(Put::Conflict(kept.copy()));
        }
        let length = self.plays();
        if self.has_left && length < n {
            return Ok(Put::Left(length));
        }
        if length < n {
            return Ok(Put::Ahead(length));
        }
        if n == MAX_FRAMES {
            return Ok(Put::Full);
        }
        self.add_play(orders)?;
        Ok(Put::Fixed)
    }

    /// Puts a departure at frame `n`.
    fn put_leave(&mut self, n: u32) -> Put
        ensures answer { result ≡ put_answer self.old n Leave }
        ensures after { self.new ≡ put_column self.old n Leave }
    {
        if let Some(there) = self.entry(n) {
            if !there.is_play() {
                return Put::Repeat;
            }
            return Put::Conflict(there.copy());
        }
        let length = self.plays();
        if self.has_left && length < n {
            return Put::Left(length);
        }
        if length < n {
            return Put::Ahead(length);
        }
        self.has_left = true;
        Put::Fixed
    }

    /// What the client has for frame `n`: its play there, or its departure at `n` or before it.
    pub(crate) fn has(&self, n: u32) -> Option<&Entry>
        ensures value { option_copied result ≡ has_at self.now n }
        ensures limit { IfSome result (λ e. is_play e.now ≡ true → n < MAX_FRAMES) }
    {
        if let Some(play) = self.plays.get(n as usize) {
            return Some(play);
        }
        if !self.has_left {
            return None;
        }
        Some(&self.leave)
    }

    /// What the client has for frame `n`: a play there, or its departure at `n` or before it.
    pub(crate) fn input(&self, n: u32) -> Input
        ensures value { result ≡ input_of (has_at self.now n) }
        ensures limit { result ≡ Input.Played → n < MAX_FRAMES }
    {
        match self.has(n) {
            Some(Entry::Play(_)) => Input::Played,
            Some(Entry::Leave) => Input::Departed,
            None => Input::Missing,
        }
    }

    /// Adds to a frame what the client has for frame `n`, or a departure where it has nothing.
    pub(crate) fn push_to(&self, n: u32, frame: &mut Frame)
        requires { length frame.old < MAX_CLIENTS }
        ensures { frame.new ≡ frame.old ++ or_leave (has_at self.now n) ∷ [] }
    {
        match self.has(n) {
            Some(Entry::Play(orders)) => frame.push_play(orders.as_slice()),
            _ => frame.push(Entry::Leave),
        }
    }

    /// Lets the client leave after its plays.
    pub(crate) fn leave(&mut self) -> Leaving
        ensures answer { result ≡ leave_answer self.old }
        ensures after { self.new ≡ left_column self.old }
    {
        let length = self.plays();
        if self.has_left {
            return Leaving::Already(length);
        }
        self.has_left = true;
        Leaving::Fixed(length)
    }

    /// Adds a play last.
    fn add_play(&mut self, orders: &[Order]) -> Result<(), NoMemory>
        requires room { length_of self.old < MAX_FRAMES }
        requires limit { length orders.now ≤ MAX_ORDERS }
        ensures added { OnOk result (self.new ≡ with_entry self.old (Play orders.now)) }
        ensures err { OnErr result (self.new ≡ self.old) }
    {
        self.plays.push(orders)
    }
}

/// Whether an entry is the play of these orders.
fn is_play_of(kept: &Entry, orders: &[Order]) -> bool
    ensures { result ≡ same_entry (Play orders.now) kept.now }
{
    match kept {
        Entry::Play(others) => orders == others.as_slice(),
        Entry::Leave => false,
    }
}
