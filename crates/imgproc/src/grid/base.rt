// Works out the base of a tile's threshold, rounding each f64 operation once, and the threshold that is stored.
ghost use Rattle.std.specs.Prelude.{◌≡◌, ◌+◌, ◌/◌, pos, ◌+ℤ◌};
ghost use Rattle.imgproc.specs.Grid.{mean_of, variance_of, sauvola_of, count_to, base_of, clipped};
ghost use Rattle.imgproc.specs.Tiles.{Small};
ghost use Rattle.imgproc.specs.GridCalls.{usable_floats};

use crate::grid::config::{SauvolaFloats, TileThresholdMethod};
use crate::grid::tiles::TileNumbers;
use std::num;

// Rounds v and clips it to 0..255, and gives 0 for a NaN: the number of whole i from 0 to 254 with v >= i + 0.5.
fn rounded(v: f64) -> u8
    ensures { result ≡ count_to 255 v }
{
    num::saturating_f64_to_u8(v.round())
}

// The numbers of tiles are small, and the methods that divide ask for that (`Small`). It is no fact of the type, since
// `join` adds numbers of any size.
impl TileNumbers {
    fn mean(self) -> f64
        requires { Small self }
        ensures { result ≡ mean_of self.sum self.count }
    {
        self.sum as f64 / self.count as f64
    }

    fn variance(self) -> f64
        requires { Small self }
        ensures { result ≡ variance_of self.sum self.sum_sq self.count }
    {
        let m = self.mean();
        let v = self.sum_sq as f64 / self.count as f64 - m * m;
        if v < 0.0 { 0.0 } else { v }
    }

    fn sauvola(self, floats: SauvolaFloats) -> u8
        requires { Small self }
        ensures { result ≡ count_to 255
            (sauvola_of self.sum self.sum_sq self.count floats.k floats.dynamic_range) }
    {
        let m = self.mean();
        let s = crate::root::root(self.variance());
        rounded(m * (1.0 + floats.k * (s / floats.dynamic_range - 1.0)))
    }

    fn midrange(self) -> u8
        ensures { result ≡ (self.minimum + self.maximum) / 2 }
    {
        self.minimum.midpoint(self.maximum)
    }

    // Works out the base of a threshold.
    pub(crate) fn base_by(self, method: TileThresholdMethod) -> u8
        requires { Small self }
        ensures { result ≡ base_of method self.minimum self.maximum self.sum self.sum_sq self.count }
    {
        match method {
            TileThresholdMethod::Midrange => self.midrange(),
            TileThresholdMethod::Sauvola(floats) => self.sauvola(floats),
        }
    }
}

// Adds the offset to a base and clips the sum to 0..255: the threshold that is stored.
pub(crate) fn stored(base: u8, offset: i16) -> u8
    ensures { result ≡ clipped (pos base +ℤ offset) }
{
    (i32::from(base) + i32::from(offset)).clamp(0, 255) as u8
}

// Accepts floats that are both finite, with the range above zero.
pub(crate) fn usable(k: f64, range: f64) -> bool
    ensures { result ≡ usable_floats k range }
{
    k.is_finite() && range.is_finite() && 0.0 < range
}
