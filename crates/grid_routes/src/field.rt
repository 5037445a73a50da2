ghost use Rattle.std.specs.Prelude.{◌≡◌, ℕ, ◌%◌, ◌<◌, ◌≤◌, IfOk, IfSome, IsTrue, IsFalse, None};
ghost use Rattle.world_units.specs.declared.cell.CPos.{CPos};
ghost use Rattle.game_model.specs.Grid.{IsOn, HasSize, is_on, place_of, with_cell};
ghost use Rattle.grid_routes.specs.Beside.{IsPlaced};
ghost use Rattle.grid_routes.specs.Labels.{IsFinalLabel, IsFull, label_of, begun};
ghost use Rattle.grid_routes.specs.Held.{HasRows};
ghost use Rattle.grid_routes.specs.Reach.{IsReached};
ghost use Rattle.grid_routes.specs.Spreading.{AreOffers, IsSpread};

use crate::beside::Placed;
use crate::buckets::Buckets;
use crate::offers::Offers;
use crate::reach::{Reach, goes_on};
use base::NoMemory;
use std::alloc::Global;
use std::marker::Model;
use world_units::CPos;

/// The label of a cell to which no walk is known.
pub(crate) const NONE: u32 = u32::MAX;

/// Distances to a goal, as far as a search has come.
#[derive(Drop)]
pub(crate) struct Field {
    width: u8,
    height: u8,
    /// The cost of the best walk that is known from each cell, row by row.
    labels: Vec<u32>,
    /// Up to this the labels are final.
    level: u32,
    /// How far the search goes, everywhere where there is none.
    reach: Option<Reach>,
}

impl Model for Field {
    ghost use Rattle.grid_routes.specs.Labels.{Distances, IsFull};

    ghost Value = { Distances };

    ghost view = { λ f. record {
      labels =
          record { width = f.width; height = f.height; cells = f.labels.items };
      level = f.level;
      reach = f.reach;
    } };

    ghost invariant = { λ f. IsFull (record {
      width = f.width;
      height = f.height;
      cells =
          f.labels.items;
    }) };
}

impl Field {
    /// A field without a goal. Out of memory is its only error.
    pub(crate) fn create(alloc: Global, w: u8, h: u8) -> Result<Field, NoMemory>
        ensures { IfOk result (λ field. HasSize w h field.labels) }
    {
        let mut labels = Vec::new(alloc);
        labels.resize(usize::from(w) * usize::from(h), NONE)?;
        Ok(Field {
            width: w,
            height: h,
            labels,
            level: NONE,
            reach: None,
        })
    }

    /// A field without a goal, in memory that is written now. `None` where there is too little of
    /// it.
    pub(crate) fn within(labels: Vec<u32>, w: u8, h: u8) -> Option<Field>
        ensures { IfSome result (λ field. HasSize w h field.labels) }
    {
        let mut labels = labels;
        let cells = usize::from(w) * usize::from(h);
        if labels.capacity() < cells {
            return None;
        }
        let Ok(()) = labels.resize(cells, NONE) else {
            return None;
        };
        Some(Field {
            width: w,
            height: h,
            labels,
            level: NONE,
            reach: None,
        })
    }

    /// Begins again, at another goal, for a search that goes so far.
    pub(crate) fn begin(&mut self, goal: CPos, reach: Option<Reach>)
        requires { IsOn self.old.labels.width self.old.labels.height goal }
        ensures value { self.new ≡ begun self.old goal reach }
        ensures full { IsFull self.old.labels }
    {
        self.labels.as_mut_slice().fill(NONE);
        self.level = 0;
        self.reach = reach;
        self.lower(goal, 0);
    }

    /// Whether a cell is on the map.
    pub(crate) fn has(&self, p: CPos) -> bool
        ensures { result ≡ is_on self.now.labels.width self.now.labels.height p }
    {
        p.x < self.width && p.y < self.height
    }

    /// The label of a cell, `NONE` where it isn't on the map.
    #[tactic(auto, unfolding(crate::specs::Values::value_in))]
    pub(crate) fn label(&self, p: CPos) -> u32
        ensures { result ≡ label_of self.now.labels p }
    {
        if self.has(p) {
            self.labels[usize::from(p.y) * usize::from(self.width) + usize::from(p.x)]
        } else {
            NONE
        }
    }

    /// Sets the label of a cell.
    pub(crate) fn lower(&mut self, p: CPos, label: u32)
        requires { IsOn self.old.labels.width self.old.labels.height p }
        ensures value { self.new ≡ record self.old { labels = with_cell self.old.labels p label } }
        ensures full { IsFull self.old.labels }
    {
        self.labels[usize::from(p.y) * usize::from(self.width) + usize::from(p.x)] = label;
    }

    /// The place of a cell of the map.
    #[inline(always)]
    pub(crate) fn place(&self, p: CPos) -> usize
        requires { IsOn self.now.labels.width self.now.labels.height p }
        ensures { result ≡ place_of self.now.labels.width p }
    {
        usize::from(p.y) * usize::from(self.width) + usize::from(p.x)
    }

    /// The label of a cell of the map, by its place.
    #[inline(always)]
    pub(crate) fn label_at(&self, n: Placed) -> u32
        requires { IsPlaced self.now.labels.width self.now.labels.height n }
        ensures { result ≡ label_of self.now.labels n.cell }
    {
        self.labels[n.at]
    }

    /// Sets the label of a cell of the map, by its place.
    #[inline(always)]
    pub(crate) fn lower_at(&mut self, n: Placed, label: u32)
        requires { IsPlaced self.old.labels.width self.old.labels.height n }
        ensures value { self.new ≡ record self.old {
          labels = with_cell self.old.labels n.cell label;
        } }
        ensures full { IsFull self.old.labels }
    {
        self.labels[n.at] = label;
    }

    /// Offers all neighbours of a cell of the map their labels, and puts those that take them into
    /// their buckets, which have rows for all.
    #[inline(always)]
    pub(crate) fn offer_all(&mut self, buckets: &mut Buckets, q: Placed, offers: &Offers)
        requires here { IsPlaced self.old.labels.width self.old.labels.height q }
        requires straight_rows { HasRows buckets.old (offers.now.straight % 71) 8 }
        requires across_rows { HasRows buckets.old (offers.now.across % 71) 8 }
        ensures same { self.new ≡ record self.old { labels = self.new.labels } }
        ensures spread { (entry_cost : CPos → ℕ) (level : ℕ) →
            AreOffers entry_cost q.cell level offers.now →
            label_of self.old.labels q.cell ≡ level →
            IsSpread entry_cost q.cell level self.old.labels buckets.old self.new.labels
            buckets.new }
    {
        let labels = self.labels.as_mut_slice();
        buckets.offer_all(labels, q, offers, self.width, self.height);
    }

    /// Up to this the labels are final.
    pub(crate) fn level(&self) -> u32
        ensures { result ≡ self.now.level }
    {
        self.level
    }

    /// Raises the level.
    pub(crate) fn raise(&mut self, level: u32)
        ensures { self.new ≡ record self.old { level = level } }
    {
        self.level = level;
    }

    /// Whether the label of a cell is final.
    pub(crate) fn is_final(&self, p: CPos) -> bool
        ensures { IsTrue result → IsFinalLabel self.now p }
    {
        let label = self.label(p);
        label <= self.level && self.reaches(p, label)
    }

    /// Whether the search goes on from a cell with this label. From one without a label only a
    /// search that goes everywhere does.
    pub(crate) fn reaches(&self, p: CPos, label: u32) -> bool
        ensures yes { IsTrue result → IsReached self.now.reach p label }
        ensures everywhere { IsTrue result → NONE ≤ label → self.now.reach ≡ None }
        ensures no { IsFalse result → label < NONE → IsReached self.now.reach p label → ⊥ }
    {
        goes_on(&self.reach, p, label)
    }

    /// How far the search goes, everywhere where there is none.
    pub(crate) fn reach(&self) -> Option<Reach>
        ensures { result ≡ self.now.reach }
    {
        self.reach
    }

    /// The number of columns.
    pub(crate) fn width(&self) -> u8
        ensures { result ≡ self.now.labels.width }
    {
        self.width
    }

    /// The number of rows.
    pub(crate) fn height(&self) -> u8
        ensures { result ≡ self.now.labels.height }
    {
        self.height
    }
}
