// Exports the reading.
ghost use Rattle.imgproc_c.specs.Picture.{geometry};
ghost use Rattle.imgproc_c.specs.Operators.{division_from, sauvola_from};
ghost use Rattle.imgproc_c.specs.Grid.{method_of, settings};
ghost use Rattle.imgproc_c.specs.Reading.{reading_from, ReadsNumber};

use crate::answers::read;
use crate::grid::method_of;
use image::Geometry;
use imgproc::grid::TileThresholdConfig;
use imgproc::illumination::BackgroundDivideConfig;
use imgproc::reading::ReadingConfig;
use imgproc::threshold::SauvolaConfig;

#[unsafe(no_mangle)]
pub extern "C" fn imgproc_reading(
    src: &[u8],
    src_width: usize,
    src_height: usize,
    src_stride: usize,
    dst: &mut [u8],
    dst_width: usize,
    dst_height: usize,
    dst_stride: usize,
    structuring_element: usize,
    target_luma: u8,
    denominator_floor: u8,
    opening_kernel: usize,
    tile_width: usize,
    tile_height: usize,
    neighborhood_radius: usize,
    threshold_offset: i16,
    contrast_floor: u8,
    method: u32,
    k: f64,
    dynamic_range: f64,
    radius: usize,
    k_milli: u32,
    sauvola_dynamic_range: u32,
    dark_value: u8,
    light_value: u8,
    bytes: &mut [u8],
    u64s: &mut [u64],
    open_tiles: &mut [u16],
    dark: &mut u64,
    light: &mut u64,
    skipped: &mut u64,
    comparisons: &mut u64,
) -> u32
    ensures { ReadsNumber method
        (record {
          src = src.now;
          source = geometry src_width src_height src_stride;
          dst = dst.old;
          target = geometry dst_width dst_height dst_stride;
          settings = reading_from
              (division_from structuring_element target_luma denominator_floor)
              opening_kernel
              (settings tile_width tile_height neighborhood_radius threshold_offset contrast_floor
              (method_of method k dynamic_range))
              (sauvola_from radius k_milli sauvola_dynamic_range dark_value light_value);
          bytes = bytes.old;
          u64s = u64s.old;
          open_tiles = open_tiles.old;
        })
        (record {
          dark = dark.old;
          light = light.old;
          skipped = skipped.old;
          comparisons = comparisons.old;
        })
        result
        (record { dst = dst.new; bytes = bytes.new; u64s = u64s.new; open_tiles = open_tiles.new })
        (record {
          dark = dark.new;
          light = light.new;
          skipped = skipped.new;
          comparisons = comparisons.new;
        }) }
{
    let source = Geometry {
        width: src_width,
        height: src_height,
        stride: src_stride,
    };
    let target = Geometry {
        width: dst_width,
        height: dst_height,
        stride: dst_stride,
    };
    let config = ReadingConfig {
        division: BackgroundDivideConfig {
            structuring_element,
            target_luma,
            denominator_floor,
        },
        opening_kernel,
        grid: TileThresholdConfig {
            tile_width,
            tile_height,
            neighborhood_radius,
            threshold_offset,
            contrast_floor,
            method: method_of(method, k, dynamic_range),
        },
        sauvola: SauvolaConfig {
            radius,
            k_milli,
            dynamic_range: sauvola_dynamic_range,
            dark_value,
            light_value,
        },
    };
    let answer = imgproc::reading::reading(
        src, source, dst, target, config, bytes, u64s, open_tiles,
    );
    read(answer, dark, light, skipped, comparisons)
}
