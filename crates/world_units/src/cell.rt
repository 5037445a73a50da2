/// The width of a cell in units.
pub const CELL: u32 = 1024;

/// A cell of the map by its column and its row, each 0 to 255.
#[derive(Clone, Copy, Debug, Default, Hash)]
pub struct CPos {
    /// The column, growing to the east.
    pub x: u8,
    /// The row, growing to the south.
    pub y: u8,
}

impl PartialEq for CPos {
    ghost use Rattle.std.specs.Cmp.{decided, partial_equiv_from_equiv};
    ghost use Rattle.world_units.specs.Cells.{same_cell};
    ghost use Rattle.world_units.specs.CellEquality.{cell_decides};

    ghost eq = { same_cell };

    ghost laws = { partial_equiv_from_equiv (decided same_cell cell_decides) };

    fn eq(&self, other: &CPos) -> bool {
        self.x == other.x && self.y == other.y
    }
}

impl Eq for CPos {
    ghost use Rattle.std.specs.Cmp.{decided};
    ghost use Rattle.world_units.specs.Cells.{same_cell};
    ghost use Rattle.world_units.specs.CellEquality.{cell_decides};

    ghost laws = { decided same_cell cell_decides };
}
