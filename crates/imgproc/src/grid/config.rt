// The settings of a tile grid, below every module that goes by them.
ghost use Rattle.std.specs.Prelude.{◌≡◌};
ghost use Rattle.imgproc.specs.Grid.{grid_defaults};

// The two settings of the grid's Sauvola threshold.
#[derive(Clone, Copy)]
pub struct SauvolaFloats {
    pub k: f64,
    pub dynamic_range: f64,
}

// The two ways to work out the base of a tile's threshold.
#[derive(Clone, Copy)]
pub enum TileThresholdMethod {
    Midrange,
    Sauvola(SauvolaFloats),
}

// The settings of a grid.
#[derive(Clone, Copy)]
pub struct TileThresholdConfig {
    pub tile_width: usize,
    pub tile_height: usize,
    pub neighborhood_radius: usize,
    pub threshold_offset: i16,
    pub contrast_floor: u8,
    pub method: TileThresholdMethod,
}

// The settings that the published Rust has by default.
impl Default for TileThresholdConfig {
    ghost is_default = { λ c. c ≡ grid_defaults };

    fn default() -> Self {
        Self {
            tile_width: 16,
            tile_height: 16,
            neighborhood_radius: 1,
            threshold_offset: 0,
            contrast_floor: 12,
            method: TileThresholdMethod::Midrange,
        }
    }
}
