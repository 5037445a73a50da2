ghost use Rattle.std.specs.Prelude.{◌≡◌, ◌<◌, ◌≤◌, length, replicate, IfOk, OnOk, OnErr, slice_set};
ghost use Rattle.std.specs.Option.{option_copied};
ghost use Rattle.game_orders.specs.declared.entry.Entry.TheVariants.{Play};
ghost use Rattle.game_orders.specs.declared.limits.TheConstants.{MAX_ORDERS};
ghost use Rattle.frame_core.specs.Column.{column_of, length_of, entry_at, put_answer, put_column};
ghost use Rattle.frame_core.specs.Column.{no_column, leave_answer, left_column};
ghost use Rattle.frame_core.specs.Put.{PutMeans};
ghost use Rattle.frame_core.specs.Grows.{Grows};
ghost use Rattle.frame_core.specs.Ready.{ready_at, frame_at, MeansReadyAt};

use crate::column::StoredColumn;
use crate::input::Input;
use crate::inputs::{Inputs, ready_by};
use crate::leaving::Leaving;
use crate::put::Put;
use crate::ready::Ready;
use base::NoMemory;
use game_orders::{Entry, Frame, MAX_CLIENTS, MAX_FRAMES, Order};
use std::alloc::Global;
use std::marker::Model;

/// The columns of a match, one for each client by rising number. They only grow.
pub struct Columns {
    held: Vec<StoredColumn>,
}

// By hand, so that what drops one needs no proof of how its parts are dropped.
impl Drop for Columns {
    fn drop(self) {
        let Self { held: _ } = self;
    }
}

impl Model for Columns {
    ghost use Rattle.std.specs.Prelude.{List, ◌≤◌, length};
    ghost use Rattle.frame_core.specs.Column.{Column};
    ghost use Rattle.game_orders.specs.declared.limits.TheConstants.{MAX_CLIENTS};

    ghost Value = { List Column };

    ghost view = { λ columns. columns.held.items };

    ghost invariant = { λ columns. (1 ≤ length columns.held.items) × (length columns.held.items ≤
        MAX_CLIENTS) };
}

impl Columns {
    /// The empty columns of 1 to `MAX_CLIENTS` clients. It fails only where it is out of memory.
    pub fn create(alloc: Global, clients: u8) -> Result<Columns, NoMemory>
        requires least { 1 ≤ clients }
        requires most { clients ≤ MAX_CLIENTS }
        ensures { IfOk result (λ columns. columns ≡ replicate clients no_column) }
    {
        let mut held = Vec::new(alloc);
        for _client in 0..clients {
            held.push(StoredColumn::new(alloc))?;
        }
        Ok(Columns { held })
    }

    /// The number of clients, 1 to `MAX_CLIENTS`.
    pub fn clients(&self) -> u8
        ensures value { result ≡ length self.now }
        ensures least { 1 ≤ result }
        ensures most { result ≤ MAX_CLIENTS }
    {
        self.held.len() as u8
    }

    /// The number of plays of client `c`, which is below the number of clients: at most
    /// `MAX_FRAMES` plays.
    pub fn plays(&self, c: u8) -> u32
        requires { c < length self.now }
        ensures value { result ≡ length_of (column_of self.now c) }
        ensures limit { result ≤ MAX_FRAMES }
    {
        self.held[c as usize].plays()
    }

    /// Whether client `c`, which is below the number of clients, has left. Its departure stands at
    /// the frame that is its number of plays.
    pub fn left(&self, c: u8) -> bool
        requires { c < length self.now }
        ensures { result ≡ (column_of self.now c).left }
    {
        self.held[c as usize].has_left()
    }

    /// The entry of client `c`, which is below the number of clients, that stands at frame `n`.
    /// None exactly where neither a play nor the departure stands at `n`.
    pub fn entry(&self, c: u8, n: u32) -> Option<&Entry>
        requires { c < length self.now }
        ensures { option_copied result ≡ entry_at (column_of self.now c) n }
    {
        self.held[c as usize].entry(n)
    }

    /// Puts an entry of client `c`, which is below the number of clients, at frame `n`. The first
    /// applicable case decides:
    ///
    /// 1. An entry stands at `n`: `Repeat` if it is the same, else `Conflict` with the one that
    ///    stands.
    /// 2. The client left before `n`: `Left` with the frame.
    /// 3. `n` is above the number of plays: `Ahead` with that number.
    /// 4. The entry is a play and `n` is `MAX_FRAMES`: `Full`.
    /// 5. `Fixed`: the entry is added. No other case changes anything.
    ///
    /// Out of memory is its one error, and then nothing has changed.
    pub fn put(&mut self, c: u8, n: u32, e: Entry) -> Result<Put, NoMemory>
        requires { c < length self.old }
        ensures answer { IfOk result (λ put. put ≡ put_answer (column_of self.old c) n e) }
        ensures after { OnOk result (self.new ≡ slice_set self.old c (put_column (column_of self.old
            c) n e)) }
        ensures means { IfOk result (λ put. PutMeans (column_of self.new c) n e put) }
        ensures grows { Grows self.old self.new }
        ensures err { OnErr result (self.new ≡ self.old) }
    {
        self.held[c as usize].put(n, e)
    }

    /// Puts a play of client `c`, which is below the number of clients, at frame `n`, as
    /// [`put`](Self::put) does, of orders that are lent, at most
    /// [`MAX_ORDERS`](game_orders::MAX_ORDERS).
    pub fn put_play(&mut self, c: u8, n: u32, orders: &[Order]) -> Result<Put, NoMemory>
        requires client { c < length self.old }
        requires limit { length orders.now ≤ MAX_ORDERS }
        ensures answer { IfOk result (λ put. put
            ≡ put_answer (column_of self.old c) n (Play orders.now)) }
        ensures after { OnOk result (self.new ≡ slice_set self.old c
            (put_column (column_of self.old c) n (Play orders.now))) }
        ensures means { IfOk result (λ put. PutMeans (column_of self.new c) n (Play orders.now) put) }
        ensures grows { Grows self.old self.new }
        ensures err { OnErr result (self.new ≡ self.old) }
    {
        self.held[c as usize].put_play(n, orders)
    }

    /// Lets client `c`, which is below the number of clients, leave: its departure stands at the
    /// frame that is its number of plays. `Already` exactly where it has left, and then nothing
    /// changes.
    pub fn leave(&mut self, c: u8) -> Leaving
        requires { c < length self.old }
        ensures answer { result ≡ leave_answer (column_of self.old c) }
        ensures after { self.new ≡ slice_set self.old c (left_column (column_of self.old c)) }
        ensures grows { Grows self.old self.new }
    {
        self.held[c as usize].leave()
    }

    /// Whether frame `n` is ready. `NotYet` with the least client that has neither a play at `n`
    /// nor left at or before it; else `Over` where no client has a play at `n`.
    pub fn ready(&self, n: u32) -> Ready
        ensures value { result ≡ ready_at self.now n }
        ensures means { MeansReadyAt self.now n result }
        ensures limit { result ≡ Ready.Yes → n < MAX_FRAMES }
    {
        ready_by(self, n)
    }

    /// The agreed frame `n`, only where it is ready: the play of each client that has one there,
    /// and a Leave for each that left.
    pub fn frame(&self, n: u32) -> Frame
        requires { ready_at self.now n ≡ Ready.Yes }
        ensures { result ≡ frame_at self.now n }
    {
        let mut frame = Frame::empty();
        self.fill_frame(n, &mut frame);
        frame
    }

    /// Makes of a frame the agreed frame `n`, in its place, only where that is ready. What the
    /// frame had is gone.
    pub fn fill_frame(&self, n: u32, frame: &mut Frame)
        requires { ready_at self.now n ≡ Ready.Yes }
        ensures { frame.new ≡ frame_at self.now n }
    {
        frame.clear();
        for column in self.held.iter() {
            column.push_to(n, frame);
        }
    }

    /// Exchanges column `c` with column `d` of the other columns, each below the number of clients
    /// there. All other columns stay.
    pub fn swap_column(&mut self, c: u8, other: &mut Columns, d: u8)
        requires mine { c < length self.old }
        requires theirs { d < length other.old }
        ensures here { self.new ≡ slice_set self.old c (column_of other.old d) }
        ensures there { other.new ≡ slice_set other.old d (column_of self.old c) }
    {
        std::mem::swap(&mut self.held[c as usize], &mut other.held[d as usize]);
    }
}

impl Inputs for Columns {
    ghost use Rattle.frame_core.specs.Ready.{inputs_at};

    ghost inputs = { inputs_at };

    fn client_count(&self) -> u8 {
        self.clients()
    }

    #[tactic(auto, using(crate::proofs::ReadyLemmas::input_there, crate::proofs::ReadyLemmas::inputs_length))]
    fn input(&self, c: u8, n: u32) -> Input {
        self.held[c as usize].input(n)
    }
}
