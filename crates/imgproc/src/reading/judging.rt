// Judges each pixel of an opened picture dark, light or skipped, and counts the three.
ghost use Rattle.std.specs.Prelude.{◌≡◌, ◌*◌, ◌<◌, length};
ghost use Rattle.image.specs.Plane.{part};
ghost use Rattle.imgproc.specs.Calls.{Paired};
ghost use Rattle.imgproc.specs.Reading.{judged_over, byte_of};
ghost use Rattle.imgproc.specs.ReadingSteps.{Counted, JudgeReady, JudgeRoom, Room, RowJudged, PictureJudged};

use crate::grid::tiles::{Tiling, tiles_along};
use crate::reading::config::ReadingConfig;
use crate::threshold::tables::build_tables;
use crate::threshold::{SauvolaConfig, Thresholds};
use image::{Geometry, Gray8View};

// What a pixel is judged: its tile may be skipped; else its value is at or below its threshold, or above it.
#[derive(Clone, Copy, PartialEq, Eq)]
pub enum Judgement {
    Dark,
    Light,
    Skipped,
}

impl Judgement {
    // Gives the byte that marks a pixel so judged.
    fn byte(self, config: SauvolaConfig) -> u8
        ensures { result ≡ byte_of config self }
    {
        match self {
            Judgement::Dark => config.dark_value,
            Judgement::Light | Judgement::Skipped => config.light_value,
        }
    }
}

// The pixels that were judged dark, light and skipped. `ReadingCounts` adds the tally, which no judgement may touch.
#[derive(Clone, Copy, Default)]
pub(crate) struct Judged {
    pub dark: u64,
    pub light: u64,
    pub skipped: u64,
}

impl Judged {
    // Counts one pixel more.
    fn add(&mut self, judgement: Judgement)
        requires { Room self.old 1 }
        ensures { Counted self.old judgement self.new }
    {
        match judgement {
            Judgement::Dark => self.dark += 1,
            Judgement::Light => self.light += 1,
            Judgement::Skipped => self.skipped += 1,
        }
    }
}

// An opened picture, its tables, which stand in a workspace from `at` on, the skips of its tiles, and the settings.
// `pixel` makes its `Thresholds`: held here, it would carry the settings a second time, and a fact that both agree.
#[derive(Clone, Copy)]
struct Judge<'a, 't> {
    opened: Gray8View<'a>,
    tables: &'t [u64],
    at: usize,
    skips: &'t [u8],
    config: ReadingConfig,
    ghost ready: { JudgeReady opened.pixels.now opened.geometry skips.now tables.now at config },
}

impl<'a, 't> Judge<'a, 't> {
    // Judges pixel (x, y).
    fn pixel(self, x: usize, y: usize) -> Judgement
        requires { (x < self.opened.geometry.width) × (y < self.opened.geometry.height) }
        ensures { let g = self.entry.opened.geometry in
            result ≡ judged_over self.entry.config g.width g.height self.entry.opened.pixels.now x y }
    {
        let grid = self.config.grid;
        let width = self.opened.geometry.width;
        let tiles_x = tiles_along(width, grid.tile_width);
        let tile = y / grid.tile_height * tiles_x + x / grid.tile_width;
        if self.skips[tile] != 0 {
            return Judgement::Skipped;
        }
        let thresholds = Thresholds {
            source: self.opened,
            tables: self.tables,
            at: self.at,
            config: self.config.sauvola,
        };
        let threshold = thresholds.at_pixel(x, y);
        let place = y * width + x;
        if u64::from(self.opened.pixels[place]) <= threshold {
            Judgement::Dark
        } else {
            Judgement::Light
        }
    }

    // Judges row y pixel by pixel, counts, and writes the row of the destination.
    fn row(self, judged: Judged, y: usize, out: &mut [u8]) -> Judged
        requires { (y < self.opened.geometry.height)
            × ((length out.old ≡ self.opened.geometry.width) × Room judged self.opened.geometry.width) }
        ensures { let o = self.entry.opened in
            RowJudged judged self.entry.config o.geometry o.pixels.now y result out.new }
    {
        let mut counts = judged;
        for x in 0..self.opened.geometry.width {
            let judgement = self.pixel(x, y);
            counts.add(judgement);
            out[x] = judgement.byte(self.config.sauvola);
        }
        counts
    }

    // Judges and counts every pixel of the picture, row by row into the destination.
    fn rows(self, dst: &mut [u8], dst_geometry: Geometry) -> Judged
        requires { Paired (length self.opened.pixels.now) self.opened.geometry (length dst.old) dst_geometry }
        ensures { let o = self.entry.opened in
            PictureJudged self.entry.config o.geometry o.pixels.now
            dst.old
            dst_geometry
            result
            dst.new }
    {
        let mut counts = Judged::default();
        for y in 0..self.opened.geometry.height {
            let from = y * dst_geometry.stride;
            let to = from + self.opened.geometry.width;
            counts = self.row(counts, y, &mut dst[from..to]);
        }
        counts
    }
}

// Judges the opened picture, which stands at the start of the byte workspace with its tiles' skips from `marks` on.
pub(crate) fn judge_picture(
    packed: Geometry,
    config: ReadingConfig,
    bytes: &[u8],
    marks: usize,
    u64s: &mut [u64],
    dst: &mut [u8],
    dst_geometry: Geometry,
) -> Judged
    requires ready { JudgeRoom packed config marks bytes.now u64s.old }
    requires destination { Paired (packed.width * packed.height) packed (length dst.old) dst_geometry }
    ensures { PictureJudged config packed (part 0 (packed.width * packed.height) bytes.now)
        dst.old
        dst_geometry
        result
        dst.new }
{
    let plane = packed.width * packed.height;
    let opened = Gray8View {
        pixels: &bytes[..plane],
        geometry: packed,
    };
    let tiling = Tiling {
        source: opened,
        config: config.grid,
    };
    let end = marks + tiling.total();
    build_tables(opened, u64s, 0);
    let judge = Judge {
        opened,
        tables: u64s,
        at: 0,
        skips: &bytes[marks..end],
        config,
    };
    judge.rows(dst, dst_geometry)
}
