// Judges by tables whose entries are 32 bits wide and wrap: an entry is the sum modulo 2^32. A window of at most 66,051
// pixels has sums below 2^32, so that the differences of entries are these sums all the same.
mod tables;

ghost use Rattle.std.specs.Prelude.{◌≡◌, ℕ, ◌≤◌, ◌<◌, length, get_or};
ghost use Rattle.image.specs.Plane.{picture, painted_on};
ghost use Rattle.imgproc.specs.SauvolaNarrow.{window_limit, largest_window};
ghost use Rattle.imgproc.specs.Tables.{narrow_modulus, InRange, Tables, NarrowReady};
ghost use Rattle.imgproc.specs.Sauvola.{threshold_at_pixel, verdict, binarized};
ghost use Rattle.imgproc.specs.Calls.{Paired};

use crate::reach::Area;
use crate::threshold::config::SauvolaConfig;
use crate::threshold::narrow::tables::{build_tables, rect_sum};
use crate::threshold::sums::Sums;
use image::{Geometry, Gray8View};

// A picture whose narrow tables stand in a workspace from `at` on, and the settings that judge it.
#[derive(Clone, Copy)]
struct NarrowThresholds<'a> {
    source: Gray8View<'a>,
    tables: &'a [u32],
    at: usize,
    config: SauvolaConfig,
    ghost tabled: { Tables narrow_modulus source.pixels.now source.geometry at tables.now },
    ghost in_range: { InRange config },
    ghost fits: { largest_window config.radius source.geometry.width source.geometry.height ≤ window_limit },
}

impl<'a> NarrowThresholds<'a> {
    // Works out the threshold of pixel (x, y) from both tables.
    fn at_pixel(self, x: usize, y: usize) -> u64
        requires { (x < self.source.geometry.width) × (y < self.source.geometry.height) }
        ensures { let s = self.entry.source in let g = s.geometry in
            result ≡ threshold_at_pixel self.entry.config g.width g.height (picture s.pixels.now g) x y }
    {
        let geometry = self.source.geometry;
        let wide = geometry.width + 1;
        let squares = self.at + wide * (geometry.height + 1);
        let window = Area::around(x, y, self.config.radius, geometry.width, geometry.height);
        let sum = u64::from(rect_sum(self.tables, self.at, wide, window));
        let sum_sq = u64::from(rect_sum(self.tables, squares, wide, window));
        let count = window.count();
        let sums = Sums { sum, sum_sq, count };
        sums.threshold(self.config)
    }

    // Judges row y of the source.
    fn binarize_row(self, y: usize, out: &mut [u8])
        requires { (y < self.source.geometry.height) × (length out.old ≡ self.source.geometry.width) }
        ensures { let s = self.entry.source in let g = s.geometry in
            (x : ℕ) → x < g.width
            → get_or out.new x 0 ≡ verdict self.entry.config g.width g.height (picture s.pixels.now g) x y }
    {
        for (x, value) in self.source.row(y).iter().enumerate() {
            out[x] = self.config.verdict(*value, self.at_pixel(x, y));
        }
    }

    // Judges the picture, and writes the verdicts into the destination's rows.
    fn binarize(self, dst: &mut [u8], dst_geometry: Geometry)
        requires { Paired (length self.source.pixels.now) self.source.geometry (length dst.old) dst_geometry }
        ensures { let s = self.entry.source in let g = s.geometry in
            dst.new
            ≡ painted_on dst.old dst_geometry
            (binarized self.entry.config g.width g.height (picture s.pixels.now g)) }
    {
        for y in 0..self.source.geometry.height {
            let from = y * dst_geometry.stride;
            let to = from + self.source.geometry.width;
            self.binarize_row(y, &mut dst[from..to]);
        }
    }
}

// Builds both tables, then judges every pixel.
pub(crate) fn binarize(
    source: Gray8View<'_>,
    dst: &mut [u8],
    dst_geometry: Geometry,
    config: SauvolaConfig,
    workspace: &mut [u32],
)
    requires { NarrowReady
        (record {
          src = source.pixels.now;
          source = source.geometry;
          dst = dst.old;
          target = dst_geometry;
          settings = config;
          workspace = workspace.old;
        }) }
    ensures { let s = source.entry in let g = s.geometry in
        dst.new
        ≡ painted_on dst.old dst_geometry
        (binarized config g.width g.height (picture s.pixels.now g)) }
{
    build_tables(source, workspace, 0);
    let thresholds = NarrowThresholds {
        source,
        tables: workspace,
        at: 0,
        config,
    };
    thresholds.binarize(dst, dst_geometry);
}
