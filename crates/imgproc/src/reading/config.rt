// Holds the settings of a reading: those of the division, of the opening, of the grid and of the threshold.
use crate::grid::config::TileThresholdConfig;
use crate::illumination::BackgroundDivideConfig;
use crate::threshold::SauvolaConfig;

// The settings of a reading; `opening_kernel` is document 01's m.
#[derive(Clone, Copy)]
pub struct ReadingConfig {
    pub division: BackgroundDivideConfig,
    pub opening_kernel: usize,
    pub grid: TileThresholdConfig,
    pub sauvola: SauvolaConfig,
}
