// Makes the pictures, the settings and the records of a call from its numbers. An offset is a pattern of 16 bits, a
// float one of 64.
use crate::numbers::narrow;
use image::Geometry;
use imgproc::grid::{SauvolaFloats, TileThresholdConfig, TileThresholdGrid, TileThresholdMethod};
use imgproc::illumination::BackgroundDivideConfig;
use imgproc::reading::ReadingConfig;
use imgproc::threshold::SauvolaConfig;
use records::entry::Entry;
use records::record::Record;

// The numbers of a call: its own first, then as many as any call has.
pub(crate) type Numbers = [usize; 28];

fn geometry([width, height, stride]: [usize; 3]) -> Geometry {
    Geometry {
        width,
        height,
        stride,
    }
}

pub(crate) fn source(f: Numbers) -> Geometry {
    geometry([f[1], f[2], f[3]])
}

pub(crate) fn destination(f: Numbers) -> Geometry {
    geometry([f[4], f[5], f[6]])
}

pub(crate) fn division(f: Numbers) -> BackgroundDivideConfig {
    BackgroundDivideConfig {
        structuring_element: f[7],
        target_luma: narrow(f[8]),
        denominator_floor: narrow(f[9]),
    }
}

// Takes the radius, k, the range, and the bytes for dark and light.
fn window([radius, k, range, dark, light]: [usize; 5]) -> SauvolaConfig {
    SauvolaConfig {
        radius,
        k_milli: narrow(k),
        dynamic_range: narrow(range),
        dark_value: narrow(dark),
        light_value: narrow(light),
    }
}

pub(crate) fn sauvola(f: Numbers) -> SauvolaConfig {
    window([f[7], f[8], f[9], f[10], f[11]])
}

// Gives the float of a pattern; for each pattern of a NaN, a NaN. (std's `from_bits` asks that the pattern is of none.)
#[tactic(auto, using(std::proofs::lemmas::Float::not_nan_f64_bits))]
fn float(bits: u64) -> f64 {
    if bits % 0x8000_0000_0000_0000 > 0x7ff0_0000_0000_0000 {
        return f64::NAN;
    }
    f64::from_bits(bits)
}

// A list has the method as a number, as the C interface does.
fn method(kind: usize, k: usize, range: usize) -> TileThresholdMethod {
    match kind {
        0 => TileThresholdMethod::Midrange,
        _ => TileThresholdMethod::Sauvola(SauvolaFloats {
            k: float(k as u64),
            dynamic_range: float(range as u64),
        }),
    }
}

// Takes the tile sides, the neighbourhood radius, the contrast floor, the method's kind, k and range, and the offset.
fn tiles(numbers: [usize; 8]) -> TileThresholdConfig {
    let [width, height, radius, floor, kind, k, range, offset] = numbers;
    TileThresholdConfig {
        tile_width: width,
        tile_height: height,
        neighborhood_radius: radius,
        threshold_offset: narrow::<u16>(offset).cast_signed(),
        contrast_floor: narrow(floor),
        method: method(kind, k, range),
    }
}

pub(crate) fn grid(f: Numbers) -> TileThresholdConfig {
    tiles([f[4], f[5], f[6], f[7], f[8], f[9], f[10], f[11]])
}

pub(crate) fn reading(f: Numbers) -> ReadingConfig {
    ReadingConfig {
        division: division(f),
        opening_kernel: f[10],
        grid: tiles([f[11], f[12], f[13], f[14], f[15], f[16], f[17], f[18]]),
        sauvola: window([f[19], f[20], f[21], f[22], f[23]]),
    }
}

// Gives the sides that a record of a reading is made with. The stride does not matter.
pub(crate) fn sides(f: Numbers) -> Geometry {
    geometry([f[26], f[27], 0])
}

// Makes the record of a call's numbers. A list has no number that does not fit, which `narrow` would make 0.
pub(crate) fn record(f: Numbers) -> Record {
    Record {
        flask: narrow(f[1]),
        pass: narrow(f[2]),
        width: narrow(f[3]),
        height: narrow(f[4]),
        dark: narrow(f[5]),
        light: narrow(f[6]),
        skipped: narrow(f[7]),
        comparisons: narrow(f[8]),
    }
}

// Makes the entry of a call's numbers.
pub(crate) fn entry(f: Numbers) -> Entry {
    Entry {
        flask: narrow(f[1]),
        pass: narrow(f[2]),
        width: f[3],
        height: f[4],
        dark: f[5] as u64,
        light: f[6] as u64,
        skipped: f[7] as u64,
        comparisons: f[8] as u64,
    }
}

pub(crate) fn built(f: Numbers) -> TileThresholdGrid {
    TileThresholdGrid {
        width: f[1],
        height: f[2],
        tile_width: f[3],
        tile_height: f[4],
        tiles_x: f[5],
        tiles_y: f[6],
    }
}
