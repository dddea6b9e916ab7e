// Lays the tiles of a grid over a picture, and gathers the five numbers of each, one tile after another, into a u64
// workspace from an offset on.
ghost use Rattle.std.specs.Prelude.{◌≡◌, ◌+◌, ◌-◌, ◌*◌, ◌^◌, ◌≤◌, ◌<◌, length, get_or, MatchResult};
ghost use Rattle.image.specs.Layout.{side_limit};
ghost use Rattle.image.specs.Plane.{pixel, overwritten};
ghost use Rattle.imgproc.specs.Reach.{ceiling};
ghost use Rattle.imgproc.specs.Grid.{tiles_x_of, tiles_y_of, tile_to, tiles_limit};
ghost use Rattle.imgproc.specs.GridCalls.{grid_settings, tile_count, tile_counts};
ghost use Rattle.imgproc.specs.Refusals.{first};
ghost use Rattle.imgproc.specs.Tiles.{Sized, Within, numbers_in, line_numbers, tile, joined};
ghost use Rattle.imgproc.specs.Gathering.{five, Gathers, GathersTile};

use crate::ImgProcError;
use crate::grid::TileCounts;
use crate::grid::config::TileThresholdConfig;
use crate::reach::Area;
use image::Gray8View;

// The numbers of a set of pixels.
#[derive(Clone, Copy)]
pub struct TileNumbers {
    pub minimum: u8,
    pub maximum: u8,
    pub sum: u64,
    pub sum_sq: u64,
    pub count: u64,
}

impl TileNumbers {
    // Works out the numbers of a line of samples.
    fn of_line(samples: &[u8]) -> Self
        requires { (0 < length samples.now) × (length samples.now ≤ side_limit) }
        ensures { result ≡ line_numbers (λ x. get_or samples.now x 0) 0 (length samples.now - 1) }
    {
        let mut minimum = u8::MAX;
        let mut maximum = u8::MIN;
        let mut sum: u32 = 0;
        let mut sum_sq: u32 = 0;
        for sample in samples {
            minimum = minimum.min(*sample);
            maximum = maximum.max(*sample);
            let value = u32::from(*sample);
            sum += value;
            sum_sq += value * value;
        }
        Self {
            minimum,
            maximum,
            sum: u64::from(sum),
            sum_sq: u64::from(sum_sq),
            count: samples.len() as u64,
        }
    }

    // Works out the numbers of the pixels of an area.
    fn of_area(source: Gray8View<'_>, area: Area) -> Self
        requires { Within area source.geometry.width source.geometry.height }
        ensures { result ≡ numbers_in (pixel source.entry.pixels.now source.entry.geometry.stride) area }
    {
        let from = area.left;
        let to = area.right + 1;
        let mut numbers = Self::of_line(&source.row(area.top)[from..to]);
        for y in area.top + 1..area.bottom + 1 {
            let next = Self::of_line(&source.row(y)[from..to]);
            numbers = numbers.join(next);
        }
        numbers
    }

    // Joins the numbers of two sets of pixels.
    pub(crate) fn join(self, other: Self) -> Self
        requires { (self.sum + other.sum < 2 ^ 64) × (self.sum_sq + other.sum_sq < 2 ^ 64)
            × (self.count + other.count < 2 ^ 64) }
        ensures { result ≡ joined self other }
    {
        Self {
            minimum: self.minimum.min(other.minimum),
            maximum: self.maximum.max(other.maximum),
            sum: self.sum + other.sum,
            sum_sq: self.sum_sq + other.sum_sq,
            count: self.count + other.count,
        }
    }

    // Stores the five numbers from `at` on.
    fn store(self, workspace: &mut [u64], at: usize)
        requires { at + 5 ≤ length workspace.old }
        ensures { workspace.new ≡ overwritten at (five self) workspace.old }
    {
        workspace[at] = u64::from(self.minimum);
        workspace[at + 1] = u64::from(self.maximum);
        workspace[at + 2] = self.sum;
        workspace[at + 3] = self.sum_sq;
        workspace[at + 4] = self.count;
    }
}

// Counts the tiles of `side` samples that cover `n` samples. Nothing wraps, whatever the side.
pub(crate) fn tiles_along(n: usize, side: usize) -> usize
    requires { 0 < side }
    ensures { result ≡ ceiling n side }
{
    n.div_ceil(side)
}

// Gives the last sample of tile i, along an axis of n samples with tiles of `side`.
fn tile_last(n: usize, side: usize, i: usize) -> usize
    requires { (0 < side) × (i * side < n) }
    ensures { result ≡ tile_to side n i }
{
    let from = i * side;
    from + (side - 1).min(n - 1 - from)
}

// A picture, and the settings of the grid whose tiles cover it.
#[derive(Clone, Copy)]
pub(crate) struct Tiling<'a> {
    pub source: Gray8View<'a>,
    pub config: TileThresholdConfig,
    pub ghost sized: { Sized config source.geometry.width source.geometry.height },
}

impl<'a> Tiling<'a> {
    // Checks the settings of a grid over a picture.
    pub(crate) fn new(
        source: Gray8View<'a>,
        config: TileThresholdConfig,
    ) -> Result<Self, ImgProcError>
        ensures { MatchResult result
            (λ t. (t.source ≡ source.entry) × (t.config ≡ config) × (first (grid_settings config) ≡ Ok tt))
            (λ e. first (grid_settings config) ≡ Err e) }
    {
        crate::grid::check_settings(config)?;
        Ok(Self { source, config })
    }

    // Counts the tiles along both sides.
    pub(crate) fn counts(self) -> TileCounts
        ensures { let t = self.entry in
            result ≡ tile_counts t.config t.source.geometry.width t.source.geometry.height }
    {
        let geometry = self.source.geometry;
        TileCounts {
            tiles_x: tiles_along(geometry.width, self.config.tile_width),
            tiles_y: tiles_along(geometry.height, self.config.tile_height),
        }
    }

    // Counts all tiles.
    pub(crate) fn total(self) -> usize
        ensures { let t = self.entry in
            (result ≡ tile_count t.config t.source.geometry.width t.source.geometry.height) × (result ≤ tiles_limit) }
    {
        let tiles = self.counts();
        tiles.tiles_x * tiles.tiles_y
    }

    // Finds the pixels of tile (i, j).
    fn tile(self, i: usize, j: usize) -> Area
        requires { (i < tiles_x_of self.config self.source.geometry.width)
            × (j < tiles_y_of self.config self.source.geometry.height) }
        ensures area { let t = self.entry in
            result ≡ tile t.config t.source.geometry.width t.source.geometry.height i j }
        ensures within { Within result self.entry.source.geometry.width self.entry.source.geometry.height }
    {
        let geometry = self.source.geometry;
        let config = self.config;
        Area {
            left: i * config.tile_width,
            right: tile_last(geometry.width, config.tile_width, i),
            top: j * config.tile_height,
            bottom: tile_last(geometry.height, config.tile_height, j),
        }
    }

    // Gathers the numbers of tile n alone, and stores them behind those of the n tiles before it, which start at `at`.
    // Tiles are counted along a tile row from the left, tile row after tile row.
    pub(crate) fn gather_tile(self, n: usize, workspace: &mut [u64], at: usize)
        requires { (n < tile_count self.config self.source.geometry.width self.source.geometry.height)
            × (at + 5 * (n + 1) ≤ length workspace.old) }
        ensures { let t = self.entry in
            GathersTile (record { src = t.source.pixels.now; source = t.source.geometry; settings = t.config })
            at n workspace.old workspace.new }
    {
        let tiles_x = self.counts().tiles_x;
        let tile = self.tile(n % tiles_x, n / tiles_x);
        let numbers = TileNumbers::of_area(self.source, tile);
        numbers.store(workspace, at + 5 * n);
    }

    // Gathers the numbers of the first n tiles from `at` on, one tile after another.
    pub(crate) fn gather(self, n: usize, workspace: &mut [u64], at: usize)
        requires { (n ≤ tile_count self.config self.source.geometry.width self.source.geometry.height)
            × (at + 5 * n ≤ length workspace.old) }
        ensures { let t = self.entry in
            Gathers (record { src = t.source.pixels.now; source = t.source.geometry; settings = t.config })
            at n workspace.old workspace.new }
    {
        for t in 0..n {
            self.gather_tile(t, workspace, at);
        }
    }
}
