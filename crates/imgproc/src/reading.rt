// Reads a picture: flattens and opens it, skips its tiles of low contrast, and judges every other pixel by its
// threshold.
pub mod config;
pub mod judging;

ghost use Rattle.std.specs.Prelude.{◌≡◌, ◌≤◌, length};
ghost use Rattle.imgproc.specs.Grid.{tiles_y_of};
ghost use Rattle.imgproc.specs.Reading.{Reads, read_answer, reading_settings, room_over};
ghost use Rattle.imgproc.specs.Refusals.{first};
ghost use Rattle.imgproc.specs.ReadingSteps.{ReadReady, ReadDone, OpenReady, Opened, MarkReady, Marks, CountsLeft};

use crate::ImgProcError;
use crate::grid::bytes::{SkipRule, write_bytes};
use crate::grid::open::count_open;
use crate::grid::table::TileTable;
use crate::grid::tiles::Tiling;
use crate::illumination::flatten;
use crate::morphology::bad_kernel;
use crate::morphology::rect::morph_rect_twice;
use crate::morphology::sweeps::Planes;
use crate::morphology::tally::{Tally, start};
use crate::pair::check_pair;
use crate::reading::judging::judge_picture;
pub use config::ReadingConfig;
use image::{Geometry, Gray8View};

// A reading's byte workspace begins with this many planes of width × height bytes; the tiles' skips follow them.
pub const PLANES: usize = 9;

// The pixels of each kind, and the tally of the comparisons.
#[derive(Clone, Copy)]
pub struct ReadingCounts {
    pub dark: u64,
    pub light: u64,
    pub skipped: u64,
    pub tally: Tally,
}

// Flattens the picture in the second plane of the workspace, and opens it into the first.
fn flatten_and_open(
    tally: Tally,
    source: Gray8View<'_>,
    config: ReadingConfig,
    bytes: &mut [u8],
) -> Tally
    requires { OpenReady tally source.geometry config bytes.old }
    ensures { Opened tally source.entry.pixels.now source.entry.geometry config bytes.old result bytes.new }
{
    let width = source.geometry.width;
    let height = source.geometry.height;
    let plane = width * height;
    let spare = 2 * plane;
    let kernel = config.opening_kernel;
    let division = config.division;
    let raised = flatten(tally, source, division, bytes);
    let planes = Planes {
        from: plane,
        to: 0,
        spare,
        width,
        height,
    };
    morph_rect_twice::<true, false>(raised, bytes, planes, kernel, kernel)
}

// Marks the opened picture's tiles: writes their skips from `marks` on, and counts the open ones of each tile row.
fn mark_tiles(
    packed: Geometry,
    config: ReadingConfig,
    bytes: &mut [u8],
    marks: usize,
    u64s: &mut [u64],
    open_tiles: &mut [u16],
)
    requires room { MarkReady packed config marks bytes.old u64s.old }
    requires rows { tiles_y_of config.grid packed.height ≤ length open_tiles.old }
    ensures marks { Marks packed config marks
        bytes.old
        u64s.old
        bytes.new
        u64s.new }
    ensures counted { CountsLeft packed config bytes.old open_tiles.old open_tiles.new }
{
    let plane = packed.width * packed.height;
    let grid = config.grid;
    let opened = Gray8View {
        pixels: &bytes[..plane],
        geometry: packed,
    };
    let tiling = Tiling {
        source: opened,
        config: grid,
    };
    let total = tiling.total();
    tiling.gather(total, u64s, 0);
    let table = TileTable::new(tiling, u64s, 0);
    let tiles = table.tiles;
    let end = marks + total;
    write_bytes(SkipRule(grid), table, bytes, marks);
    count_open(&bytes[marks..end], tiles, open_tiles);
}

// Does the work of an accepted reading: one tally, started at 0, goes through the closing and the opening.
fn read_picture(
    source: Gray8View<'_>,
    dst: &mut [u8],
    dst_geometry: Geometry,
    config: ReadingConfig,
    bytes: &mut [u8],
    u64s: &mut [u64],
    open_tiles: &mut [u16],
) -> ReadingCounts
    requires { ReadReady
        (record {
          src = source.pixels.now;
          source = source.geometry;
          dst = dst.old;
          target = dst_geometry;
          settings = config;
          bytes = bytes.old;
          u64s = u64s.old;
          open_tiles = open_tiles.old;
        }) }
    ensures { ReadDone
        (record {
          src = source.entry.pixels.now;
          source = source.entry.geometry;
          dst = dst.old;
          target = dst_geometry;
          settings = config;
          bytes = bytes.old;
          u64s = u64s.old;
          open_tiles = open_tiles.old;
        })
        result
        (record { dst = dst.new; bytes = bytes.new; u64s = u64s.new; open_tiles = open_tiles.new }) }
{
    let width = source.geometry.width;
    let height = source.geometry.height;
    let packed = Geometry {
        width,
        height,
        stride: width,
    };
    let marks = PLANES * (width * height);
    let tally = flatten_and_open(start(), source, config, bytes);
    mark_tiles(packed, config, bytes, marks, u64s, open_tiles);
    let judged = judge_picture(packed, config, bytes, marks, u64s, dst, dst_geometry);
    ReadingCounts {
        dark: judged.dark,
        light: judged.light,
        skipped: judged.skipped,
        tally,
    }
}

// Checks the settings: the division's, the opening's kernel, the grid's, the threshold's.
#[tactic(auto, unfolding(crate::specs::Refusals::first, crate::specs::Reading::reading_settings), using(crate::specs::RefusalLaws::then_accepted))]
pub(crate) fn check_settings(config: ReadingConfig) -> Result<(), ImgProcError>
    ensures { result ≡ first (reading_settings config) }
{
    crate::illumination::check_settings(config.division)?;
    if bad_kernel(config.opening_kernel) {
        return Err(ImgProcError::InvalidKernel);
    }
    crate::grid::check_settings(config.grid)?;
    crate::threshold::checks::check_settings(config.sauvola)
}

// Checks that both workspaces have room for a reading of the picture, and the count buffer a number for each tile row.
#[tactic(auto, unfolding(crate::specs::Refusals::first))]
fn check_room(
    tiling: Tiling<'_>,
    bytes: usize,
    u64s: usize,
    open_room: usize,
) -> Result<(), ImgProcError>
    ensures { let t = tiling.entry in
        result ≡ first (room_over t.source.geometry t.config bytes u64s open_room) }
{
    let width = tiling.source.geometry.width;
    let height = tiling.source.geometry.height;
    let count = tiling.total();
    if bytes < PLANES * (width * height) + 2 * count
        || u64s < 2 * ((width + 1) * (height + 1)) + 5 * count
    {
        return Err(ImgProcError::WorkspaceTooSmall);
    }
    if open_room < tiling.counts().tiles_y {
        return Err(ImgProcError::GridBufferTooSmall);
    }
    Ok(())
}

// Reads a picture: judges every pixel, marks the rows of the destination, counts the open tiles of each tile row and
// the pixels of each kind. The two workspaces stay two parameters, as a destination and its geometry do (`unpack_rows`
// of image says why).
pub fn reading(
    src: &[u8],
    src_geometry: Geometry,
    dst: &mut [u8],
    dst_geometry: Geometry,
    config: ReadingConfig,
    bytes: &mut [u8],
    u64s: &mut [u64],
    open_tiles: &mut [u16],
) -> Result<ReadingCounts, ImgProcError>
    ensures { Reads
        (record {
          src = src.now;
          source = src_geometry;
          dst = dst.old;
          target = dst_geometry;
          settings = config;
          bytes = bytes.old;
          u64s = u64s.old;
          open_tiles = open_tiles.old;
        })
        (read_answer result)
        (record { dst = dst.new; bytes = bytes.new; u64s = u64s.new; open_tiles = open_tiles.new }) }
{
    let source = check_pair(src, src_geometry, dst.len(), dst_geometry)?;
    check_settings(config)?;
    let tiling = Tiling {
        source,
        config: config.grid,
    };
    check_room(tiling, bytes.len(), u64s.len(), open_tiles.len())?;
    Ok(read_picture(source, dst, dst_geometry, config, bytes, u64s, open_tiles))
}
