ghost use Rattle.std.specs.Prelude.{◌≡◌, ◌≢◌, ◌*◌, ◌<◌, replicate, None, Some, slice_get, IfOk};
ghost use Rattle.std.specs.List.{All, AllPairs};
ghost use Rattle.game_model.specs.Grid.{place_of, with_cell, IsOn};

use base::NoMemory;
use game_model::Actor;
use std::alloc::Global;
use std::marker::Model;
use world_units::CPos;

/// For each cell of a map the id of the actor that holds it, row by row.
#[derive(Drop)]
pub(crate) struct CellIndex {
    width: u8,
    height: u8,
    cells: Vec<Option<u32>>,
}

impl Model for CellIndex {
    ghost use Rattle.std.specs.Prelude.{◌≡◌, ◌*◌, ℕ, length, Option};
    ghost use Rattle.game_model.specs.Grid.{Grid};

    ghost Value = { Grid (Option ℕ) };

    ghost view = { λ c. record { width = c.width; height = c.height; cells = c.cells.items } };

    ghost invariant = { λ c. length c.cells.items ≡ c.width * c.height };
}

impl CellIndex {
    ghost use Rattle.actor_table.specs.Table.{IsIndexed};

    /// Nobody anywhere. Out of memory is its only error.
    pub(crate) fn create(alloc: Global, w: u8, h: u8) -> Result<CellIndex, NoMemory>
        ensures { IfOk result (λ index. index ≡ (record { width = w; height = h; cells = replicate (w * h) None })) }
    {
        let mut cells = Vec::new(alloc);
        cells.resize(usize::from(w) * usize::from(h), None)?;
        Ok(CellIndex {
            width: w,
            height: h,
            cells,
        })
    }

    /// These actors, on cells of the map of which no two are the same. Out of memory is its only
    /// error.
    pub(crate) fn filled(
        alloc: Global,
        w: u8,
        h: u8,
        actors: &[Actor],
    ) -> Result<CellIndex, NoMemory>
        requires on_map { All (λ (a : Actor). IsOn w h a.cell) actors.now }
        requires apart { AllPairs (λ (a b : Actor). a.cell ≢ b.cell) actors.now }
        ensures width { IfOk result (λ index. index.width ≡ w) }
        ensures height { IfOk result (λ index. index.height ≡ h) }
        ensures actors { IfOk result (λ index. IsIndexed index actors.now) }
    {
        let mut index = CellIndex::create(alloc, w, h)?;
        for actor in actors {
            index.set(actor.cell, Some(actor.id));
        }
        Ok(index)
    }

    /// The number of columns.
    pub(crate) fn width(&self) -> u8
        ensures { result ≡ self.now.width }
    {
        self.width
    }

    /// The number of rows.
    pub(crate) fn height(&self) -> u8
        ensures { result ≡ self.now.height }
    {
        self.height
    }

    /// The id of the actor that holds a cell within the size.
    pub(crate) fn get(&self, p: CPos) -> Option<u32>
        requires column { p.x < self.now.width }
        requires row { p.y < self.now.height }
        ensures { slice_get self.now.cells (place_of self.now.width p) ≡ Some result }
    {
        self.cells[usize::from(p.y) * usize::from(self.width) + usize::from(p.x)]
    }

    /// Sets who holds a cell within the size. The other cells stay.
    pub(crate) fn set(&mut self, p: CPos, holder: Option<u32>)
        requires column { p.x < self.old.width }
        requires row { p.y < self.old.height }
        ensures { self.new ≡ with_cell self.old p holder }
    {
        self.cells[usize::from(p.y) * usize::from(self.width) + usize::from(p.x)] = holder;
    }
}
