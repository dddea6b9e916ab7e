// Builds the tile grid: each tile of a picture gets a local threshold and a mark for low contrast.
pub(crate) mod base;
pub(crate) mod bytes;
pub mod config;
pub(crate) mod open;
pub mod queries;
pub(crate) mod table;
pub(crate) mod tiles;

ghost use Rattle.std.specs.Prelude.{◌≡◌};
ghost use Rattle.image.specs.Answers.{answered};
ghost use Rattle.imgproc.specs.Refusals.{error_number, first};
ghost use Rattle.imgproc.specs.GridCalls.{usable_method, grid_settings, tile_counts, grid_room, Builds};
ghost use Rattle.imgproc.specs.Tiles.{Rooms, Fills};

use crate::ImgProcError;
use crate::grid::bytes::{SkipRule, ThresholdRule, write_bytes};
use crate::grid::open::count_open;
use crate::grid::table::TileTable;
use crate::grid::tiles::Tiling;
pub use config::{SauvolaFloats, TileThresholdConfig, TileThresholdMethod};
use image::{Geometry, Gray8View};
pub use queries::TileThresholdGrid;

// How many tiles a grid has in each row, and in each column.
#[derive(Clone, Copy, PartialEq, Eq)]
pub struct TileCounts {
    pub tiles_x: usize,
    pub tiles_y: usize,
}

// Accepts Midrange, and Sauvola with floats that are usable.
fn usable_method(method: TileThresholdMethod) -> bool
    ensures { result ≡ usable_method method }
{
    match method {
        TileThresholdMethod::Midrange => true,
        TileThresholdMethod::Sauvola(floats) => base::usable(floats.k, floats.dynamic_range),
    }
}

// Accepts or refuses the settings of a grid.
#[tactic(auto, unfolding(crate::specs::Refusals::first, crate::specs::GridCalls::grid_settings))]
pub(crate) fn check_settings(config: TileThresholdConfig) -> Result<(), ImgProcError>
    ensures { result ≡ first (grid_settings config) }
{
    if config.tile_width == 0 || config.tile_height == 0 || !usable_method(config.method) {
        return Err(ImgProcError::InvalidConfiguration);
    }
    Ok(())
}

// Accepts lent buffers that hold the tiles of a picture, and a number for each tile row.
#[tactic(auto, unfolding(crate::specs::Refusals::first))]
fn check_room(
    tiling: Tiling<'_>,
    room: usize,
    threshold_room: usize,
    skip_room: usize,
    open_room: usize,
) -> Result<(), ImgProcError>
    ensures { let t = tiling.entry in
        result
        ≡ first (grid_room (tile_counts t.config t.source.geometry.width t.source.geometry.height)
        room threshold_room skip_room open_room) }
{
    let count = tiling.total();
    if room < 5 * count {
        return Err(ImgProcError::WorkspaceTooSmall);
    }
    if threshold_room < count || skip_room < count || open_room < tiling.counts().tiles_y {
        return Err(ImgProcError::GridBufferTooSmall);
    }
    Ok(())
}

// Gathers the numbers of all tiles, writes the thresholds and the skips from them, and counts the open tiles.
fn fill(
    tiling: Tiling<'_>,
    workspace: &mut [u64],
    thresholds: &mut [u8],
    skips: &mut [u8],
    open_tiles: &mut [u16],
)
    requires { Rooms
        (record {
          src = tiling.source.pixels.now;
          source = tiling.source.geometry;
          settings = tiling.config;
          workspace = workspace.old;
          thresholds = thresholds.old;
          skips = skips.old;
          open_tiles = open_tiles.old;
        }) }
    ensures { Fills
        (record {
          src = tiling.entry.source.pixels.now;
          source = tiling.entry.source.geometry;
          settings = tiling.entry.config;
          workspace = workspace.old;
          thresholds = thresholds.old;
          skips = skips.old;
          open_tiles = open_tiles.old;
        })
        (record {
          workspace = workspace.new;
          thresholds = thresholds.new;
          skips = skips.new;
          open_tiles = open_tiles.new;
        }) }
{
    tiling.gather(tiling.total(), workspace, 0);
    let table = TileTable::new(tiling, workspace, 0);
    write_bytes(ThresholdRule(tiling.config), table, thresholds, 0);
    write_bytes(SkipRule(tiling.config), table, skips, 0);
    count_open(skips, tiling.counts(), open_tiles);
}

impl TileThresholdGrid {
    // Writes the threshold and the skip of every tile of a picture, one byte each, and for each tile row the number of
    // its tiles that are not skipped, into the first places of three buffers.
    pub fn build(
        src: &[u8],
        geometry: Geometry,
        config: TileThresholdConfig,
        workspace: &mut [u64],
        thresholds: &mut [u8],
        skips: &mut [u8],
        open_tiles: &mut [u16],
    ) -> Result<TileCounts, ImgProcError>
        ensures { Builds
            (record {
              src = src.now;
              source = geometry;
              settings = config;
              workspace = workspace.old;
              thresholds = thresholds.old;
              skips = skips.old;
              open_tiles = open_tiles.old;
            })
            (answered error_number result)
            (record {
              workspace = workspace.new;
              thresholds = thresholds.new;
              skips = skips.new;
              open_tiles = open_tiles.new;
            }) }
    {
        let source = Gray8View::new(src, geometry)?;
        let tiling = Tiling::new(source, config)?;
        check_room(
            tiling,
            workspace.len(),
            thresholds.len(),
            skips.len(),
            open_tiles.len(),
        )?;
        fill(tiling, workspace, thresholds, skips, open_tiles);
        Ok(tiling.counts())
    }
}
