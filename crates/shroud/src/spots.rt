ghost use Rattle.std.specs.Prelude.{◌≡◌, ◌+◌, ◌*◌, ◌<◌, ◌≤◌, length, replicate, slice_set, IfOk};
ghost use Rattle.game_model.specs.Grid.{IsOn};
ghost use Rattle.shroud.specs.Discs.{IsDisc, IsSpan};
ghost use Rattle.shroud.specs.Spots.{changed, dark, in_disc, in_row, place_in, row_of, spot_at};
ghost use Rattle.shroud.specs.Spots.{AreChanged};

use crate::disc::{Disc, Span};
use crate::spot::Spot;
use base::NoMemory;
use std::alloc::Global;
use std::marker::Model;
use world_units::CPos;

/// A spot for each cell of each client: client by client, and row by row.
#[derive(Drop)]
pub(crate) struct Spots {
    width: u8,
    height: u8,
    clients: u8,
    cells: Vec<Spot>,
}

impl Model for Spots {
    ghost use Rattle.std.specs.Prelude.{◌≡◌, ◌*◌, length};
    ghost use Rattle.shroud.specs.Spots.{SpotState};

    ghost Value = { SpotState };

    ghost view = { λ s. record {
      width = s.width;
      height = s.height;
      clients = s.clients;
      cells = s.cells.items;
    } };

    ghost invariant = { λ s. length s.cells.items ≡ (s.clients * s.height) * s.width };
}

/// So many dark spots. Out of memory is its only error.
fn dark_spots(alloc: Global, count: usize) -> Result<Vec<Spot>, NoMemory>
    ensures { IfOk result (λ spots. spots.items ≡ replicate count dark) }
{
    let mut spots = Vec::with_capacity(alloc, count)?;
    spots.resize(
        count,
        Spot {
            count: 0,
            explored: false,
        },
    )?;
    Ok(spots)
}

/// The row of all clients' rows in which a client's row is.
fn row_of(height: u8, client: u8, y: u8) -> usize
    ensures { result ≡ row_of height client y }
{
    usize::from(client) * usize::from(height) + usize::from(y)
}

/// The place of a client's cell in a list of the cells of so many clients.
fn place_in(width: u8, height: u8, client: u8, p: CPos) -> usize
    ensures { result ≡ place_in width height client p }
{
    row_of(height, client, p.y) * usize::from(width) + usize::from(p.x)
}

/// The spot at a place.
fn spot_in(cells: &[Spot], place: usize) -> Spot
    requires { place < length cells.now }
    ensures { result ≡ spot_at cells.now place }
{
    cells[place]
}

/// Changes the count of a spot where it is seen, by so many modulo 2^16.
fn change_spot(cells: &mut [Spot], place: usize, is_seen: bool, by: u16)
    requires { place < length cells.old }
    ensures { cells.new ≡ slice_set cells.old place (changed is_seen by (spot_at cells.old place)) }
{
    cells[place] = cells[place].changed(is_seen, by);
}

/// Changes the count of the cells of a row that the disc covers, by so many modulo 2^16.
fn change_row(cells: &mut [Spot], start: usize, width: u8, y: u8, disc: &Disc, by: u16)
    requires room { start + width ≤ length cells.old }
    requires disc { IsDisc disc.now }
    ensures { AreChanged by (in_row start width y disc.now) cells.old cells.new }
{
    let columns = disc.columns(width);
    for x in columns.first..columns.end {
        change_spot(cells, start + usize::from(x), disc.covers(x, y), by);
    }
}

/// Where a client's row begins in the list of the cells of so many clients, which has room for it.
fn row_start(cells: &[Spot], width: u8, height: u8, clients: u8, client: u8, y: u8) -> usize
    requires whole { length cells.now ≡ (clients * height) * width }
    requires client { client < clients }
    requires row { y < height }
    ensures value { result ≡ row_of height client y * width }
    ensures room { result + width ≤ length cells.now }
{
    let _cells = cells.len();
    row_of(height, client, y) * usize::from(width)
}

impl Spots {
    /// All dark. Out of memory is its only error.
    pub(crate) fn create(alloc: Global, w: u8, h: u8, clients: u8) -> Result<Spots, NoMemory>
        ensures { IfOk result (λ spots. spots ≡ (record {
          width = w;
          height = h;
          clients = clients;
          cells = replicate ((clients * h) * w) dark;
        })) }
    {
        let count = usize::from(clients) * usize::from(h) * usize::from(w);
        Ok(Spots {
            width: w,
            height: h,
            clients,
            cells: dark_spots(alloc, count)?,
        })
    }

    /// The spot of a client's cell.
    #[tactic(auto, using(crate::proofs::PlaceLemmas::place_within))]
    pub(crate) fn get(&self, client: u8, p: CPos) -> Spot
        requires client { client < self.now.clients }
        requires cell { IsOn self.now.width self.now.height p }
        ensures { result ≡ spot_at self.now.cells
            (place_in self.now.width self.now.height client p) }
    {
        let place = place_in(self.width, self.height, client, p);
        spot_in(self.cells.as_slice(), place)
    }

    /// The number of columns.
    pub(crate) fn width(&self) -> u8
        ensures { result ≡ self.now.width }
    {
        let _height = self.height;
        self.width
    }

    /// The number of rows.
    pub(crate) fn height(&self) -> u8
        ensures { result ≡ self.now.height }
    {
        let _width = self.width;
        self.height
    }

    /// The number of clients.
    pub(crate) fn clients(&self) -> u8
        ensures value { result ≡ self.now.clients }
        ensures whole { length self.now.cells
            ≡ (self.now.clients * self.now.height) * self.now.width }
    {
        let _width = self.width;
        self.clients
    }

    /// Changes the count of the cells of a client's row that the disc covers, by so many modulo
    /// 2^16.
    fn change_row_of(&mut self, client: u8, y: u8, disc: &Disc, by: u16)
        requires client { client < self.old.clients }
        requires row { y < self.old.height }
        requires disc { IsDisc disc.now }
        ensures changes { AreChanged by
            (in_row (row_of self.old.height client y * self.old.width) self.old.width y disc.now)
            self.old.cells self.new.cells }
        ensures same { self.new ≡ (record self.old { cells = self.new.cells }) }
    {
        let start = row_start(
            self.cells.as_slice(),
            self.width,
            self.height,
            self.clients,
            client,
            y,
        );
        change_row(self.cells.as_mut_slice(), start, self.width, y, disc, by);
    }

    /// The rows of the map that can have cells of the disc.
    fn rows(&self, disc: &Disc) -> Span
        ensures span { IsSpan disc.now.centre.y disc.now.reach self.now.height result }
        ensures whole { length self.now.cells
            ≡ (self.now.clients * self.now.height) * self.now.width }
    {
        let _width = self.width;
        disc.rows(self.height)
    }

    /// Changes the count of a client's cells that the disc covers, by so many modulo 2^16, and
    /// marks them as explored.
    pub(crate) fn change(&mut self, client: u8, disc: &Disc, by: u16)
        requires client { client < self.old.clients }
        requires disc { IsDisc disc.now }
        ensures changes { AreChanged by
            (in_disc self.old.width self.old.height client disc.now)
            self.old.cells self.new.cells }
        ensures same { self.new ≡ (record self.old { cells = self.new.cells }) }
    {
        let rows = self.rows(disc);
        for y in rows.first..rows.end {
            self.change_row_of(client, y, disc, by);
        }
    }
}
