// Exports erosion, dilation, opening and closing. C needs a function for each name.
ghost use Rattle.imgproc.specs.MorphologyCalls.{erosion, dilation, opening, closing};
ghost use Rattle.imgproc_c.specs.Picture.{geometry};
ghost use Rattle.imgproc_c.specs.Exports.{Exports};

use crate::answers::counted;
use image::Geometry;

#[unsafe(no_mangle)]
pub extern "C" fn imgproc_grayscale_erode_into(
    src: &[u8],
    src_width: usize,
    src_height: usize,
    src_stride: usize,
    dst: &mut [u8],
    dst_width: usize,
    dst_height: usize,
    dst_stride: usize,
    kernel_size: usize,
    workspace: &mut [u8],
    comparisons: &mut u64,
) -> u32
    ensures { Exports erosion
        (record {
          src = src.now;
          source = geometry src_width src_height src_stride;
          dst = dst.old;
          target = geometry dst_width dst_height dst_stride;
          settings = kernel_size;
          workspace = workspace.old;
        })
        comparisons.old
        result
        (record { dst = dst.new; workspace = workspace.new })
        comparisons.new }
{
    let source = Geometry {
        width: src_width,
        height: src_height,
        stride: src_stride,
    };
    let target = Geometry {
        width: dst_width,
        height: dst_height,
        stride: dst_stride,
    };
    let answer = imgproc::morphology::grayscale_erode_into(
        src,
        source,
        dst,
        target,
        kernel_size,
        workspace,
    );
    counted(answer, comparisons)
}

#[unsafe(no_mangle)]
pub extern "C" fn imgproc_grayscale_dilate_into(
    src: &[u8],
    src_width: usize,
    src_height: usize,
    src_stride: usize,
    dst: &mut [u8],
    dst_width: usize,
    dst_height: usize,
    dst_stride: usize,
    kernel_size: usize,
    workspace: &mut [u8],
    comparisons: &mut u64,
) -> u32
    ensures { Exports dilation
        (record {
          src = src.now;
          source = geometry src_width src_height src_stride;
          dst = dst.old;
          target = geometry dst_width dst_height dst_stride;
          settings = kernel_size;
          workspace = workspace.old;
        })
        comparisons.old
        result
        (record { dst = dst.new; workspace = workspace.new })
        comparisons.new }
{
    let source = Geometry {
        width: src_width,
        height: src_height,
        stride: src_stride,
    };
    let target = Geometry {
        width: dst_width,
        height: dst_height,
        stride: dst_stride,
    };
    let answer = imgproc::morphology::grayscale_dilate_into(
        src,
        source,
        dst,
        target,
        kernel_size,
        workspace,
    );
    counted(answer, comparisons)
}

#[unsafe(no_mangle)]
pub extern "C" fn imgproc_grayscale_open_into(
    src: &[u8],
    src_width: usize,
    src_height: usize,
    src_stride: usize,
    dst: &mut [u8],
    dst_width: usize,
    dst_height: usize,
    dst_stride: usize,
    kernel_size: usize,
    workspace: &mut [u8],
    comparisons: &mut u64,
) -> u32
    ensures { Exports opening
        (record {
          src = src.now;
          source = geometry src_width src_height src_stride;
          dst = dst.old;
          target = geometry dst_width dst_height dst_stride;
          settings = kernel_size;
          workspace = workspace.old;
        })
        comparisons.old
        result
        (record { dst = dst.new; workspace = workspace.new })
        comparisons.new }
{
    let source = Geometry {
        width: src_width,
        height: src_height,
        stride: src_stride,
    };
    let target = Geometry {
        width: dst_width,
        height: dst_height,
        stride: dst_stride,
    };
    let answer = imgproc::morphology::grayscale_open_into(
        src,
        source,
        dst,
        target,
        kernel_size,
        workspace,
    );
    counted(answer, comparisons)
}

#[unsafe(no_mangle)]
pub extern "C" fn imgproc_grayscale_close_into(
    src: &[u8],
    src_width: usize,
    src_height: usize,
    src_stride: usize,
    dst: &mut [u8],
    dst_width: usize,
    dst_height: usize,
    dst_stride: usize,
    kernel_size: usize,
    workspace: &mut [u8],
    comparisons: &mut u64,
) -> u32
    ensures { Exports closing
        (record {
          src = src.now;
          source = geometry src_width src_height src_stride;
          dst = dst.old;
          target = geometry dst_width dst_height dst_stride;
          settings = kernel_size;
          workspace = workspace.old;
        })
        comparisons.old
        result
        (record { dst = dst.new; workspace = workspace.new })
        comparisons.new }
{
    let source = Geometry {
        width: src_width,
        height: src_height,
        stride: src_stride,
    };
    let target = Geometry {
        width: dst_width,
        height: dst_height,
        stride: dst_stride,
    };
    let answer = imgproc::morphology::grayscale_close_into(
        src,
        source,
        dst,
        target,
        kernel_size,
        workspace,
    );
    counted(answer, comparisons)
}
