// Answers queries about the tiles of a built grid, and sets and clears their skips by hand. A call is lent the buffers
// that it reads or writes, and refuses sizes that no build gives.
ghost use Rattle.std.specs.Prelude.{◌≡◌, ◌&&◌, ltb};
ghost use Rattle.image.specs.Answers.{answered};
ghost use Rattle.imgproc.specs.Refusals.{error_number, first};
ghost use Rattle.imgproc.specs.Blanking.{tile_place, SetsSkip, Blanks, Clears};
ghost use Rattle.imgproc.specs.GridCalls.{
  bad_side,
  bad_grid,
  grid_conditions,
  asked_conditions,
  pixel_place,
  row_place,
  threshold_asked,
  skip_asked,
  row_skip_asked,
};

use crate::ImgProcError;
use crate::grid::open::count_row;
use crate::grid::tiles::tiles_along;
use image::LumaError;

// The sizes of a built grid: the picture's sides, the tile sides and the tile counts.
#[derive(Clone, Copy)]
pub struct TileThresholdGrid {
    pub width: usize,
    pub height: usize,
    pub tile_width: usize,
    pub tile_height: usize,
    pub tiles_x: usize,
    pub tiles_y: usize,
}

fn bad_side(n: usize) -> bool
    ensures { result ≡ bad_side n }
{
    n == 0 || image::MAX_SIDE < n
}

// Accepts or refuses what is asked of a sound grid: `short` says whether a lent buffer is too short, `inside` whether
// the place lies in the picture or in the grid.
#[tactic(auto, unfolding(crate::specs::Refusals::first))]
fn check_asked(short: bool, inside: bool) -> Result<(), ImgProcError>
    ensures { result ≡ first (asked_conditions short inside) }
{
    if short {
        return Err(ImgProcError::GridBufferTooSmall);
    }
    if !inside {
        return Err(ImgProcError::Image(LumaError::OutsidePicture));
    }
    Ok(())
}

impl TileThresholdGrid {
    // Finds out whether a caller's grid is one that no build gives.
    #[tactic(auto, unfolding(crate::specs::GridCalls::bad_grid))]
    fn bad_grid(self) -> bool
        ensures { result ≡ bad_grid self }
    {
        if bad_side(self.width) {
            return true;
        }
        if bad_side(self.height) {
            return true;
        }
        if self.tile_width == 0 {
            return true;
        }
        if self.tile_height == 0 {
            return true;
        }
        if self.tiles_x != tiles_along(self.width, self.tile_width) {
            return true;
        }
        self.tiles_y != tiles_along(self.height, self.tile_height)
    }

    // Refuses a grid that no build gives.
    #[tactic(auto, unfolding(crate::specs::Refusals::first))]
    fn check_grid(self) -> Result<(), ImgProcError>
        ensures { result ≡ first (grid_conditions self) }
    {
        if self.bad_grid() {
            return Err(ImgProcError::InvalidConfiguration);
        }
        Ok(())
    }

    fn holds_pixel(self, x: usize, y: usize) -> bool
        ensures { result ≡ (ltb x self.width && ltb y self.height) }
    {
        x < self.width && y < self.height
    }

    fn holds_tile(self, i: usize, j: usize) -> bool
        ensures { result ≡ (ltb i self.tiles_x && ltb j self.tiles_y) }
    {
        i < self.tiles_x && j < self.tiles_y
    }

    // Finds the byte of the tile of pixel (x, y) in a buffer of `len` bytes.
    #[tactic(auto, unfolding(crate::specs::Refusals::first))]
    fn pixel_place(self, len: usize, x: usize, y: usize) -> Result<usize, ImgProcError>
        ensures { result ≡ pixel_place self len x y }
    {
        self.check_grid()?;
        check_asked(len < self.tiles_x * self.tiles_y, self.holds_pixel(x, y))?;
        Ok(y / self.tile_height * self.tiles_x + x / self.tile_width)
    }

    // Finds the number of the tile row of pixel row y in a buffer of `len` numbers.
    #[tactic(auto, unfolding(crate::specs::Refusals::first))]
    fn row_place(self, len: usize, y: usize) -> Result<usize, ImgProcError>
        ensures { result ≡ row_place self len y }
    {
        self.check_grid()?;
        check_asked(len < self.tiles_y, y < self.height)?;
        Ok(y / self.tile_height)
    }

    // Finds the byte of tile (i, j) in a buffer of `len` bytes, beside a count buffer of `open_room` numbers.
    #[tactic(auto, unfolding(crate::specs::Refusals::first))]
    fn tile_place(
        self,
        len: usize,
        open_room: usize,
        i: usize,
        j: usize,
    ) -> Result<usize, ImgProcError>
        ensures { result ≡ tile_place self len open_room i j }
    {
        self.check_grid()?;
        let short = len < self.tiles_x * self.tiles_y || open_room < self.tiles_y;
        check_asked(short, self.holds_tile(i, j))?;
        Ok(j * self.tiles_x + i)
    }

    // Looks up the stored threshold of the tile of pixel (x, y).
    pub fn threshold_at(self, thresholds: &[u8], x: usize, y: usize) -> Result<u8, ImgProcError>
        ensures { answered error_number result ≡ threshold_asked self thresholds.now x y }
    {
        let i = self.pixel_place(thresholds.len(), x, y)?;
        Ok(thresholds[i])
    }

    // Looks up whether the tile of pixel (x, y) is skipped.
    pub fn is_skip(self, skips: &[u8], x: usize, y: usize) -> Result<bool, ImgProcError>
        ensures { answered error_number result ≡ skip_asked self skips.now x y }
    {
        let i = self.pixel_place(skips.len(), x, y)?;
        Ok(skips[i] != 0)
    }

    // Looks up whether every tile of the tile row of pixel row y is skipped: whether the stored number of its open
    // tiles is 0.
    pub fn row_all_skip(self, open_tiles: &[u16], y: usize) -> Result<bool, ImgProcError>
        ensures { answered error_number result ≡ row_skip_asked self open_tiles.now y }
    {
        let j = self.row_place(open_tiles.len(), y)?;
        Ok(open_tiles[j] == 0)
    }

    // Sets the skip byte of a tile, and counts the open tiles of its tile row afresh.
    fn set_skip(
        self,
        skip: u8,
        skips: &mut [u8],
        open_tiles: &mut [u16],
        tile_column: usize,
        tile_row: usize,
    ) -> Result<(), ImgProcError>
        ensures { SetsSkip skip
            (record {
              grid = self;
              skips = skips.old;
              open_tiles = open_tiles.old;
              column = tile_column;
              row = tile_row;
            })
            (answered error_number result)
            (record { skips = skips.new; open_tiles = open_tiles.new }) }
    {
        let t = self.tile_place(skips.len(), open_tiles.len(), tile_column, tile_row)?;
        skips[t] = skip;
        open_tiles[tile_row] = count_row(skips, self.tiles_x, tile_row);
        Ok(())
    }

    // Skips a tile by hand.
    pub fn blank(
        self,
        skips: &mut [u8],
        open_tiles: &mut [u16],
        tile_column: usize,
        tile_row: usize,
    ) -> Result<(), ImgProcError>
        ensures { Blanks
            (record {
              grid = self;
              skips = skips.old;
              open_tiles = open_tiles.old;
              column = tile_column;
              row = tile_row;
            })
            (answered error_number result)
            (record { skips = skips.new; open_tiles = open_tiles.new }) }
    {
        self.set_skip(1, skips, open_tiles, tile_column, tile_row)
    }

    // Takes the skip of a tile away by hand.
    pub fn clear(
        self,
        skips: &mut [u8],
        open_tiles: &mut [u16],
        tile_column: usize,
        tile_row: usize,
    ) -> Result<(), ImgProcError>
        ensures { Clears
            (record {
              grid = self;
              skips = skips.old;
              open_tiles = open_tiles.old;
              column = tile_column;
              row = tile_row;
            })
            (answered error_number result)
            (record { skips = skips.new; open_tiles = open_tiles.new }) }
    {
        self.set_skip(0, skips, open_tiles, tile_column, tile_row)
    }
}
