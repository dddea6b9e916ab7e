// Counts the open tiles of a grid: in each tile row, those that are not skipped.
ghost use Rattle.std.specs.Prelude.{◌≡◌, ◌+◌, ◌*◌, ◌≤◌, ◌<◌, length};
ghost use Rattle.image.specs.Layout.{side_limit};
ghost use Rattle.image.specs.Plane.{overwritten};
ghost use Rattle.imgproc.specs.GridCalls.{open_in, open_tiles_in};

use crate::grid::TileCounts;

// Counts the open tiles of tile row j, from the skip bytes of a grid with `tiles_x` tiles in a row. It stays a function of
// its own: inlined into `count_open`, rows of no tiles become a call of C's `memset`, and the static library needs no name
// from outside.
#[inline(never)]
pub(crate) fn count_row(skips: &[u8], tiles_x: usize, j: usize) -> u16
    requires { (j * tiles_x + tiles_x ≤ length skips.now) × (tiles_x ≤ side_limit) }
    ensures { result ≡ open_in skips.now tiles_x j }
{
    let from = j * tiles_x;
    let to = from + tiles_x;
    let mut open = 0;
    for skip in &skips[from..to] {
        open += u16::from(*skip == 0);
    }
    open
}

// Counts the open tiles of every tile row into the first numbers of a buffer.
pub(crate) fn count_open(skips: &[u8], tiles: TileCounts, open_tiles: &mut [u16])
    requires { (tiles.tiles_x * tiles.tiles_y ≤ length skips.now)
        × ((tiles.tiles_y ≤ length open_tiles.old) × (tiles.tiles_x ≤ side_limit)) }
    ensures { open_tiles.new ≡ overwritten 0 (open_tiles_in skips.now tiles.tiles_x tiles.tiles_y) open_tiles.old }
{
    for j in 0..tiles.tiles_y {
        open_tiles[j] = count_row(skips, tiles.tiles_x, j);
    }
}
