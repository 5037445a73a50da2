ghost use Rattle.std.specs.Prelude.{◌≡◌, ℕ, ◌+◌, ◌*◌, ◌%◌, ◌<◌, ◌≤◌, length, true, false};
ghost use Rattle.std.specs.Prelude.{vec_capacity, IfOk, IsTrue};
ghost use Rattle.world_units.specs.declared.cell.CPos.{CPos};
ghost use Rattle.grid_routes.specs.Beside.{IsPlaced};
ghost use Rattle.grid_routes.specs.Labels.{IsFull, label_of};
ghost use Rattle.grid_routes.specs.Held.{HasRows, IsAt, IsWhole, emptied, len_of, pushed, widened};
ghost use Rattle.grid_routes.specs.Spreading.{AreOffers, IsSpread, grid_of};

use crate::beside::Placed;
use crate::offers::{Offers, bucket_of, offer_all};
use base::NoMemory;
use std::alloc::Global;
use std::marker::Model;
use world_units::CPos;

/// How many buckets there are: one for each cost of a step, from 0 to 70.
pub(crate) const BUCKETS: u32 = 71;

/// Cells in buckets, one for each label modulo the number of buckets. A cell whose label fell later
/// stays in its old bucket too.
#[derive(Drop)]
pub(crate) struct Buckets {
    /// The most cells that a bucket holds.
    room: usize,
    /// The first cells of all buckets, then the second ones, and so on: as many rows as a bucket
    /// has held, with memory for `room` rows.
    cells: Vec<CPos>,
    /// How many cells each bucket holds.
    lens: Vec<usize>,
    /// A cell may be missing.
    lost: bool,
}

impl Model for Buckets {
    ghost use Rattle.std.specs.Prelude.{◌*◌, ◌≤◌, vec_capacity};
    ghost use Rattle.grid_routes.specs.Held.{Shelves, IsWhole};

    ghost Value = { Shelves };

    ghost view = { λ b. record {
      room = b.room;
      cells = b.cells.items;
      lens = b.lens.items;
      lost =
          b.lost;
    } };

    ghost invariant = { λ b. IsWhole (record {
      room = b.room;
      cells = b.cells.items;
      lens = b.lens.items;
      lost = b.lost;
    }) × (71 * b.room ≤ vec_capacity b.cells) };
}

impl Buckets {
    /// Empty buckets with room for each cell of a map in each of them. Out of memory is its only
    /// error.
    pub(crate) fn create(alloc: Global, w: u8, h: u8) -> Result<Buckets, NoMemory>
        ensures { IfOk result (λ buckets. buckets.room ≡ w * h) }
    {
        let room = usize::from(w) * usize::from(h);
        let cells = Vec::with_capacity(alloc, 71 * room)?;
        let mut lens = Vec::new(alloc);
        lens.resize(71, 0)?;
        Ok(Buckets {
            room,
            cells,
            lens,
            lost: false,
        })
    }

    /// Takes all cells out.
    pub(crate) fn clear_all(&mut self)
        ensures room { self.new.room ≡ self.old.room }
        ensures empty { (b : ℕ) → len_of self.new b ≡ 0 }
        ensures whole { self.new.lost ≡ false }
    {
        self.lens.as_mut_slice().fill(0);
        self.lost = false;
    }

    /// Puts a cell into a bucket, or notes that it is missing where the bucket is full.
    pub(crate) fn push(&mut self, bucket: usize, p: CPos)
        requires { bucket < 71 }
        ensures value { self.new ≡ pushed self.old bucket p }
        ensures whole { IsWhole self.old }
    {
        let len = self.lens[bucket];
        if len < self.room {
            let place = len * 71 + bucket;
            widen(&mut self.cells, place);
            self.cells[place] = p;
            self.lens[bucket] = len + 1;
        } else {
            self.lost = true;
        }
    }

    /// Whether there are rows for eight cells more in a bucket.
    #[inline(always)]
    pub(crate) fn has_rows(&self, bucket: usize) -> bool
        requires { bucket < 71 }
        ensures { IsTrue result → HasRows self.now bucket 8 }
    {
        (self.lens[bucket] + 8) * 71 <= self.cells.len()
    }

    /// Offers all neighbours of a cell of the map their labels, and puts those that take them into
    /// their buckets.
    #[inline(always)]
    pub(crate) fn offer_all(
        &mut self,
        labels: &mut [u32],
        q: Placed,
        offers: &Offers,
        width: u8,
        height: u8,
    )
        requires full { IsFull (grid_of width height labels.old) }
        requires here { IsPlaced width height q }
        requires straight_rows { HasRows self.old (offers.now.straight % 71) 8 }
        requires across_rows { HasRows self.old (offers.now.across % 71) 8 }
        ensures labels { length labels.new ≡ length labels.old }
        ensures spread { (entry_cost : CPos → ℕ) (level : ℕ) →
            AreOffers entry_cost q.cell level offers.now →
            label_of (grid_of width height labels.old) q.cell ≡ level →
            IsSpread entry_cost q.cell level (grid_of width height labels.old) self.old
            (grid_of width height labels.new) self.new }
    {
        let straight_bucket = bucket_of(offers.straight);
        let across_bucket = bucket_of(offers.across);
        let mut straight = self.lens[straight_bucket];
        let mut across = self.lens[across_bucket];
        let cells = self.cells.as_mut_slice();
        offer_all(
            labels,
            cells,
            &mut straight,
            &mut across,
            q,
            offers,
            width,
            height,
        );
        self.lens[straight_bucket] = straight;
        self.lens[across_bucket] = across;
    }

    /// How many cells a bucket holds.
    pub(crate) fn len(&self, bucket: usize) -> usize
        requires { bucket < 71 }
        ensures { result ≡ len_of self.now bucket }
    {
        self.lens[bucket]
    }

    /// A cell of a bucket.
    pub(crate) fn get(&self, bucket: usize, i: usize) -> CPos
        requires bucket { bucket < 71 }
        requires place { i < len_of self.now bucket }
        ensures here { IsAt self.now bucket i result }
        ensures whole { IsWhole self.now }
    {
        self.cells[i * 71 + bucket]
    }

    /// Takes the cells of a bucket out.
    pub(crate) fn clear(&mut self, bucket: usize)
        requires { bucket < 71 }
        ensures { self.new ≡ emptied self.old bucket }
    {
        self.lens[bucket] = 0;
    }

    /// Whether a cell may be missing.
    pub(crate) fn has_lost(&self) -> bool
        ensures { result ≡ self.now.lost }
    {
        self.lost
    }

    /// Says that cells may be missing.
    pub(crate) fn lose(&mut self)
        ensures { self.new ≡ record self.old { lost = true } }
    {
        self.lost = true;
    }
}

/// Adds a row of cells where they end before a place.
fn widen(cells: &mut Vec<CPos>, place: usize)
    requires { length cells.old.items ≤ place → length cells.old.items + 71 ≤ vec_capacity cells.old }
    ensures items { cells.new.items ≡ widened cells.old.items place }
    ensures capacity { vec_capacity cells.old ≤ vec_capacity cells.new }
{
    if place >= cells.len() {
        let Ok(()) = cells.extend_from_slice(&ROW) else {
            unreachable!()
        };
    }
}

/// A row of cells before one is put in.
const ROW: [CPos; 71] = [CPos { x: 0, y: 0 }; 71];
