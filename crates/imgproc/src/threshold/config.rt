// The settings of Sauvola's threshold, below every module that goes by them, and the verdict that they give a pixel.
ghost use Rattle.std.specs.Prelude.{◌≡◌, cond, leb};
ghost use Rattle.imgproc.specs.Sauvola.{sauvola_defaults};

// Settings of a binarization. k is given in thousandths.
#[derive(Clone, Copy)]
pub struct SauvolaConfig {
    pub radius: usize,
    pub k_milli: u32,
    pub dynamic_range: u32,
    pub dark_value: u8,
    pub light_value: u8,
}

// The settings that the published Rust has by default.
impl Default for SauvolaConfig {
    ghost is_default = { λ c. c ≡ sauvola_defaults };

    fn default() -> Self {
        Self {
            radius: 8,
            k_milli: 200,
            dynamic_range: 128,
            dark_value: 0,
            light_value: 255,
        }
    }
}

impl SauvolaConfig {
    // Judges a pixel by its threshold: at or below it, the pixel is dark.
    pub(crate) fn verdict(self, value: u8, threshold: u64) -> u8
        ensures { result ≡ cond (leb value threshold) self.dark_value self.light_value }
    {
        if u64::from(value) <= threshold {
            self.dark_value
        } else {
            self.light_value
        }
    }
}
