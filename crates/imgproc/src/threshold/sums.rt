// Works out a threshold from the sums of a pixel's window, in whole numbers.
ghost use Rattle.std.specs.Prelude.{◌≡◌, ◌<◌};
ghost use Rattle.imgproc.specs.WholeRoot.{whole_root};
ghost use Rattle.imgproc.specs.Tables.{InRange, Sane};
ghost use Rattle.imgproc.specs.Sauvola.{mean, spread, threshold};

use crate::threshold::config::SauvolaConfig;

// Finds the largest whole number whose square is at most `value`, a variance of bytes.
fn integer_sqrt(value: u64) -> u64
    requires { value < 65536 }
    ensures { (result ≡ whole_root value) × (result < 256) }
{
    u64::from((value as u16).isqrt())
}

// The sums of a window's pixels and of their squares, and how many pixels it has.
#[derive(Clone, Copy)]
pub(crate) struct Sums {
    pub sum: u64,
    pub sum_sq: u64,
    pub count: u64,
    pub ghost sane: { Sane sum sum_sq count },
}

impl Sums {
    fn mean(self) -> u64
        ensures { (result ≡ mean self.sum self.count) × (result < 256) }
    {
        self.sum / self.count
    }

    // Works out how far the pixels spread about their mean.
    #[tactic(auto, unfolding(crate::specs::Sauvola::spread))]
    fn spread(self) -> u64
        ensures { (result ≡ spread self.sum self.sum_sq self.count) × (result < 256) }
    {
        let mean = self.mean();
        integer_sqrt(self.sum_sq / self.count - mean * mean)
    }

    pub(crate) fn threshold(self, config: SauvolaConfig) -> u64
        requires { InRange config }
        ensures { result ≡ threshold config self.sum self.sum_sq self.count }
    {
        let k = u64::from(config.k_milli);
        let range = u64::from(config.dynamic_range);
        let scale = 1000 - k + k * self.spread() / range;
        self.mean() * scale / 1000
    }
}
