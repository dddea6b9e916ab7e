// Exports the division by the background.
ghost use Rattle.imgproc_c.specs.Picture.{geometry};
ghost use Rattle.imgproc_c.specs.Exports.{Exports};
ghost use Rattle.imgproc_c.specs.Operators.{division_from};
ghost use Rattle.imgproc.specs.Division.{division};

use crate::answers::counted;
use image::Geometry;
use imgproc::illumination::BackgroundDivideConfig;

#[unsafe(no_mangle)]
pub extern "C" fn imgproc_background_divide_into(
    src: &[u8],
    src_width: usize,
    src_height: usize,
    src_stride: usize,
    dst: &mut [u8],
    dst_width: usize,
    dst_height: usize,
    dst_stride: usize,
    structuring_element: usize,
    target_luma: u8,
    denominator_floor: u8,
    workspace: &mut [u8],
    comparisons: &mut u64,
) -> u32
    ensures { Exports division
        (record {
          src = src.now;
          source = geometry src_width src_height src_stride;
          dst = dst.old;
          target = geometry dst_width dst_height dst_stride;
          settings = division_from structuring_element target_luma denominator_floor;
          workspace = workspace.old;
        })
        comparisons.old
        result
        (record { dst = dst.new; workspace = workspace.new })
        comparisons.new }
{
    let source = Geometry {
        width: src_width,
        height: src_height,
        stride: src_stride,
    };
    let target = Geometry {
        width: dst_width,
        height: dst_height,
        stride: dst_stride,
    };
    let config = BackgroundDivideConfig {
        structuring_element,
        target_luma,
        denominator_floor,
    };
    let answer = imgproc::illumination::background_divide_into(
        src, source, dst, target, config, workspace,
    );
    counted(answer, comparisons)
}
