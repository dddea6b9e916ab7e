// Exports the build of the tile grid, the queries to it, and the calls that set or clear a skip by hand.
ghost use Rattle.std.specs.Prelude.{◌≡◌};
ghost use Rattle.imgproc.specs.GridCalls.{threshold_asked, skip_asked, row_skip_asked};
ghost use Rattle.imgproc_c.specs.Picture.{geometry};
ghost use Rattle.imgproc_c.specs.Exports.{Tells, as_byte};
ghost use Rattle.imgproc_c.specs.Grid.{method_of, settings, grid, BuildsNumber, BlanksNumber, ClearsNumber};

use crate::answers::{built, told, told_byte};
use image::{Geometry, answer_number};
use imgproc::grid::{SauvolaFloats, TileThresholdConfig, TileThresholdGrid, TileThresholdMethod};

// Gives the method that a number of C's stands for. Any number but 0 and 1 gets a range of 0, which the build refuses.
pub(crate) fn method_of(method: u32, k: f64, dynamic_range: f64) -> TileThresholdMethod
    ensures { result ≡ method_of method k dynamic_range }
{
    if method == 0 {
        return TileThresholdMethod::Midrange;
    }
    if method == 1 {
        return TileThresholdMethod::Sauvola(SauvolaFloats { k, dynamic_range });
    }
    TileThresholdMethod::Sauvola(SauvolaFloats {
        k: 0.0,
        dynamic_range: 0.0,
    })
}

#[unsafe(no_mangle)]
pub extern "C" fn imgproc_tile_grid_build(
    src: &[u8],
    width: usize,
    height: usize,
    stride: usize,
    tile_width: usize,
    tile_height: usize,
    neighborhood_radius: usize,
    threshold_offset: i16,
    contrast_floor: u8,
    method: u32,
    k: f64,
    dynamic_range: f64,
    workspace: &mut [u64],
    thresholds: &mut [u8],
    skips: &mut [u8],
    open_tiles: &mut [u16],
    tiles_x: &mut usize,
    tiles_y: &mut usize,
) -> u32
    ensures { BuildsNumber method
        (record {
          src = src.now;
          source = geometry width height stride;
          settings = settings tile_width tile_height neighborhood_radius threshold_offset contrast_floor
              (method_of method k dynamic_range);
          workspace = workspace.old;
          thresholds = thresholds.old;
          skips = skips.old;
          open_tiles = open_tiles.old;
        })
        (record { tiles_x = tiles_x.old; tiles_y = tiles_y.old })
        result
        (record {
          workspace = workspace.new;
          thresholds = thresholds.new;
          skips = skips.new;
          open_tiles = open_tiles.new;
        })
        (record { tiles_x = tiles_x.new; tiles_y = tiles_y.new }) }
{
    let geometry = Geometry {
        width,
        height,
        stride,
    };
    let config = TileThresholdConfig {
        tile_width,
        tile_height,
        neighborhood_radius,
        threshold_offset,
        contrast_floor,
        method: method_of(method, k, dynamic_range),
    };
    let answer = TileThresholdGrid::build(
        src, geometry, config, workspace, thresholds, skips, open_tiles,
    );
    built(answer, tiles_x, tiles_y)
}

#[unsafe(no_mangle)]
pub extern "C" fn imgproc_threshold_at(
    width: usize,
    height: usize,
    tile_width: usize,
    tile_height: usize,
    tiles_x: usize,
    tiles_y: usize,
    thresholds: &[u8],
    x: usize,
    y: usize,
    value: &mut u8,
) -> u32
    ensures { Tells
        (threshold_asked
        (grid width height tile_width tile_height tiles_x tiles_y)
        thresholds.now x y)
        value.old
        result
        value.new }
{
    let grid = TileThresholdGrid {
        width,
        height,
        tile_width,
        tile_height,
        tiles_x,
        tiles_y,
    };
    told(grid.threshold_at(thresholds, x, y), value)
}

#[unsafe(no_mangle)]
pub extern "C" fn imgproc_is_skip(
    width: usize,
    height: usize,
    tile_width: usize,
    tile_height: usize,
    tiles_x: usize,
    tiles_y: usize,
    skips: &[u8],
    x: usize,
    y: usize,
    value: &mut u8,
) -> u32
    ensures { Tells
        (as_byte (skip_asked
        (grid width height tile_width tile_height tiles_x tiles_y)
        skips.now x y))
        value.old
        result
        value.new }
{
    let grid = TileThresholdGrid {
        width,
        height,
        tile_width,
        tile_height,
        tiles_x,
        tiles_y,
    };
    told_byte(grid.is_skip(skips, x, y), value)
}

#[unsafe(no_mangle)]
pub extern "C" fn imgproc_row_all_skip(
    width: usize,
    height: usize,
    tile_width: usize,
    tile_height: usize,
    tiles_x: usize,
    tiles_y: usize,
    open_tiles: &[u16],
    y: usize,
    value: &mut u8,
) -> u32
    ensures { Tells
        (as_byte (row_skip_asked
        (grid width height tile_width tile_height tiles_x tiles_y)
        open_tiles.now y))
        value.old
        result
        value.new }
{
    let grid = TileThresholdGrid {
        width,
        height,
        tile_width,
        tile_height,
        tiles_x,
        tiles_y,
    };
    told_byte(grid.row_all_skip(open_tiles, y), value)
}

#[unsafe(no_mangle)]
pub extern "C" fn imgproc_blank_tile(
    width: usize,
    height: usize,
    tile_width: usize,
    tile_height: usize,
    tiles_x: usize,
    tiles_y: usize,
    skips: &mut [u8],
    open_tiles: &mut [u16],
    tile_column: usize,
    tile_row: usize,
) -> u32
    ensures { BlanksNumber
        (record {
          grid = grid width height tile_width tile_height tiles_x tiles_y;
          skips = skips.old;
          open_tiles = open_tiles.old;
          column = tile_column;
          row = tile_row;
        })
        result
        (record { skips = skips.new; open_tiles = open_tiles.new }) }
{
    let grid = TileThresholdGrid {
        width,
        height,
        tile_width,
        tile_height,
        tiles_x,
        tiles_y,
    };
    answer_number(grid.blank(skips, open_tiles, tile_column, tile_row))
}

#[unsafe(no_mangle)]
pub extern "C" fn imgproc_clear_tile(
    width: usize,
    height: usize,
    tile_width: usize,
    tile_height: usize,
    tiles_x: usize,
    tiles_y: usize,
    skips: &mut [u8],
    open_tiles: &mut [u16],
    tile_column: usize,
    tile_row: usize,
) -> u32
    ensures { ClearsNumber
        (record {
          grid = grid width height tile_width tile_height tiles_x tiles_y;
          skips = skips.old;
          open_tiles = open_tiles.old;
          column = tile_column;
          row = tile_row;
        })
        result
        (record { skips = skips.new; open_tiles = open_tiles.new }) }
{
    let grid = TileThresholdGrid {
        width,
        height,
        tile_width,
        tile_height,
        tiles_x,
        tiles_y,
    };
    answer_number(grid.clear(skips, open_tiles, tile_column, tile_row))
}
