// Binarizes by Sauvola's local threshold (Sauvola and Pietikäinen 2000) in whole numbers, from summed-area tables whose
// entries are 64 or, for the narrow call, 32 bits wide.
pub(crate) mod checks;
pub mod config;
mod narrow;
pub(crate) mod sums;
pub(crate) mod tables;

ghost use Rattle.std.specs.Prelude.{◌≡◌, ℕ, ◌<◌, length, get_or};
ghost use Rattle.image.specs.Plane.{picture, painted_on};
ghost use Rattle.imgproc.specs.Refusals.{error_number};
ghost use Rattle.imgproc.specs.Tables.{wide_modulus, InRange, Tables, BinarizeReady};
ghost use Rattle.imgproc.specs.Sauvola.{threshold_at_pixel, verdict, binarized, sauvola};
ghost use Rattle.imgproc.specs.SauvolaNarrow.{sauvola_narrow};
ghost use Rattle.imgproc.specs.Calls.{Serves, Paired};
ghost use Rattle.image.specs.Answers.{answered};

use crate::ImgProcError;
use crate::pair::check_pair;
use crate::reach::Area;
use crate::threshold::checks::{check_narrow, check_room};
use crate::threshold::sums::Sums;
use crate::threshold::tables::{build_tables, rect_sum};
pub use config::SauvolaConfig;
use image::{Geometry, Gray8View};

// A picture whose tables stand in a workspace from `at` on, and the settings that judge it.
#[derive(Clone, Copy)]
pub(crate) struct Thresholds<'a> {
    pub source: Gray8View<'a>,
    pub tables: &'a [u64],
    pub at: usize,
    pub config: SauvolaConfig,
    pub ghost tabled: { Tables wide_modulus source.pixels.now source.geometry at tables.now },
    pub ghost in_range: { InRange config },
}

impl<'a> Thresholds<'a> {
    // Works out the threshold of pixel (x, y) from both tables.
    pub(crate) fn at_pixel(self, x: usize, y: usize) -> u64
        requires { (x < self.source.geometry.width) × (y < self.source.geometry.height) }
        ensures { let s = self.entry.source in let g = s.geometry in
            result ≡ threshold_at_pixel self.entry.config g.width g.height (picture s.pixels.now g) x y }
    {
        let geometry = self.source.geometry;
        let wide = geometry.width + 1;
        let squares = self.at + wide * (geometry.height + 1);
        let window = Area::around(x, y, self.config.radius, geometry.width, geometry.height);
        let sum = rect_sum(self.tables, self.at, wide, window);
        let sum_sq = rect_sum(self.tables, squares, wide, window);
        let count = window.count();
        let sums = Sums { sum, sum_sq, count };
        sums.threshold(self.config)
    }

    // Judges row y of the source.
    fn binarize_row(self, y: usize, out: &mut [u8])
        requires { (y < self.source.geometry.height) × (length out.old ≡ self.source.geometry.width) }
        ensures { let s = self.entry.source in let g = s.geometry in
            (x : ℕ) → x < g.width
            → get_or out.new x 0 ≡ verdict self.entry.config g.width g.height (picture s.pixels.now g) x y }
    {
        for (x, value) in self.source.row(y).iter().enumerate() {
            out[x] = self.config.verdict(*value, self.at_pixel(x, y));
        }
    }

    // Judges the picture, and writes the verdicts into the destination's rows.
    fn binarize(self, dst: &mut [u8], dst_geometry: Geometry)
        requires { Paired (length self.source.pixels.now) self.source.geometry (length dst.old) dst_geometry }
        ensures { let s = self.entry.source in let g = s.geometry in
            dst.new
            ≡ painted_on dst.old dst_geometry
            (binarized self.entry.config g.width g.height (picture s.pixels.now g)) }
    {
        for y in 0..self.source.geometry.height {
            let from = y * dst_geometry.stride;
            let to = from + self.source.geometry.width;
            self.binarize_row(y, &mut dst[from..to]);
        }
    }
}

// Builds both tables, then judges every pixel.
fn binarize(
    source: Gray8View<'_>,
    dst: &mut [u8],
    dst_geometry: Geometry,
    config: SauvolaConfig,
    workspace: &mut [u64],
)
    requires { BinarizeReady
        (record {
          src = source.pixels.now;
          source = source.geometry;
          dst = dst.old;
          target = dst_geometry;
          settings = config;
          workspace = workspace.old;
        }) }
    ensures { let s = source.entry in let g = s.geometry in
        dst.new
        ≡ painted_on dst.old dst_geometry
        (binarized config g.width g.height (picture s.pixels.now g)) }
{
    build_tables(source, workspace, 0);
    let thresholds = Thresholds {
        source,
        tables: workspace,
        at: 0,
        config,
    };
    thresholds.binarize(dst, dst_geometry);
}

// Binarizes a picture by Sauvola's threshold into the rows of the destination.
pub fn sauvola_into(
    src: &[u8],
    src_geometry: Geometry,
    dst: &mut [u8],
    dst_geometry: Geometry,
    config: SauvolaConfig,
    workspace: &mut [u64],
) -> Result<(), ImgProcError>
    ensures { Serves sauvola
        (record {
          src = src.now;
          source = src_geometry;
          dst = dst.old;
          target = dst_geometry;
          settings = config;
          workspace = workspace.old;
        })
        (answered error_number result)
        (record { dst = dst.new; workspace = workspace.new }) }
{
    let source = check_pair(src, src_geometry, dst.len(), dst_geometry)?;
    check_room(config, source, workspace.len())?;
    binarize(source, dst, dst_geometry, config, workspace);
    Ok(())
}

// Binarizes as `sauvola_into` does, by tables of half the size, and refuses a largest window whose sums 32 bits may not
// hold.
pub fn sauvola_narrow_into(
    src: &[u8],
    src_geometry: Geometry,
    dst: &mut [u8],
    dst_geometry: Geometry,
    config: SauvolaConfig,
    workspace: &mut [u32],
) -> Result<(), ImgProcError>
    ensures { Serves sauvola_narrow
        (record {
          src = src.now;
          source = src_geometry;
          dst = dst.old;
          target = dst_geometry;
          settings = config;
          workspace = workspace.old;
        })
        (answered error_number result)
        (record { dst = dst.new; workspace = workspace.new }) }
{
    let source = check_pair(src, src_geometry, dst.len(), dst_geometry)?;
    check_narrow(config, source, workspace.len())?;
    narrow::binarize(source, dst, dst_geometry, config, workspace);
    Ok(())
}
