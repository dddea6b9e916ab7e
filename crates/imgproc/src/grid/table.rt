// Joins the numbers of the tiles that were gathered in a workspace over a neighbourhood.
ghost use Rattle.std.specs.Prelude.{◌≡◌, ◌+◌, ◌≤◌, ◌<◌};
ghost use Rattle.imgproc.specs.GridCalls.{tile_counts};
ghost use Rattle.imgproc.specs.Tiles.{HoldsTiles, Within, Proper, ProperGrid, tile_entry, join_over};
ghost use Rattle.imgproc.specs.Tiles.{joined_rows, joined_around};

use crate::grid::TileCounts;
use crate::grid::tiles::{TileNumbers, Tiling};
use crate::reach::Area;

// The numbers of the tiles of a grid, tile row after tile row from `at` on, and how far a neighbourhood reaches. The
// offset lets a caller keep other numbers before them.
#[derive(Clone, Copy)]
pub(crate) struct TileTable<'a> {
    pub workspace: &'a [u64],
    pub at: usize,
    pub tiles: TileCounts,
    pub radius: usize,
    pub ghost proper: { ProperGrid at tiles.tiles_x tiles.tiles_y workspace.now },
}

impl<'a> TileTable<'a> {
    // Finds the numbers that `gather` left from `at` on.
    pub(crate) fn new(tiling: Tiling<'_>, workspace: &'a [u64], at: usize) -> Self
        requires { HoldsTiles tiling.config tiling.source.geometry.width tiling.source.geometry.height at workspace.now }
        ensures { let t = tiling.entry in
            (result.workspace ≡ workspace.entry)
            × (result.at ≡ at)
            × (result.tiles ≡ tile_counts t.config t.source.geometry.width t.source.geometry.height)
            × (result.radius ≡ t.config.neighborhood_radius) }
    {
        Self {
            workspace,
            at,
            tiles: tiling.counts(),
            radius: tiling.config.neighborhood_radius,
        }
    }

    // Loads the numbers of tile (i, j).
    fn load(self, i: usize, j: usize) -> TileNumbers
        requires { (i < self.tiles.tiles_x) × (j < self.tiles.tiles_y) }
        ensures { result ≡ tile_entry self.entry.at self.entry.tiles.tiles_x self.entry.workspace.now i j }
    {
        let at = self.at + 5 * (j * self.tiles.tiles_x) + 5 * i;
        TileNumbers {
            minimum: self.workspace[at] as u8,
            maximum: self.workspace[at + 1] as u8,
            sum: self.workspace[at + 2],
            sum_sq: self.workspace[at + 3],
            count: self.workspace[at + 4],
        }
    }

    // Joins the numbers of the tiles from..=to of tile row j.
    fn join_row(self, j: usize, from: usize, to: usize) -> TileNumbers
        requires { (j < self.tiles.tiles_y) × (from ≤ to) × (to < self.tiles.tiles_x) }
        ensures { result
            ≡ join_over (λ i. tile_entry self.entry.at self.entry.tiles.tiles_x self.entry.workspace.now i j) from to }
    {
        let mut numbers = self.load(from, j);
        for i in from + 1..to + 1 {
            numbers = numbers.join(self.load(i, j));
        }
        numbers
    }

    // Joins the numbers of the tiles of an area of the grid.
    #[inline(always)]
    fn join_rows(self, area: Area) -> TileNumbers
        requires { Within area self.tiles.tiles_x self.tiles.tiles_y }
        ensures { result
            ≡ joined_rows self.entry.at self.entry.tiles.tiles_x self.entry.workspace.now
            area.left area.right area.top area.bottom }
    {
        let mut numbers = self.join_row(area.top, area.left, area.right);
        for j in area.top + 1..area.bottom + 1 {
            numbers = numbers.join(self.join_row(j, area.left, area.right));
        }
        numbers
    }

    // Joins the numbers of all tiles within the radius of tile (i, j). Inlined into the loop of each rule, as `join_rows`
    // is, so that the table need not be handed over for each tile.
    #[inline(always)]
    pub(crate) fn join_around(self, i: usize, j: usize) -> TileNumbers
        requires { (i < self.tiles.tiles_x) × (j < self.tiles.tiles_y) }
        ensures joined { result
            ≡ joined_around self.entry.radius self.entry.tiles.tiles_x self.entry.tiles.tiles_y
            self.entry.at self.entry.workspace.now i j }
        ensures proper { Proper result }
    {
        let tiles = self.tiles;
        let area = Area::around(i, j, self.radius, tiles.tiles_x, tiles.tiles_y);
        self.join_rows(area)
    }
}
