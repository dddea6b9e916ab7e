// Exports Sauvola's threshold, with tables of 64 bits an entry and with tables of 32.
ghost use Rattle.imgproc_c.specs.Picture.{geometry};
ghost use Rattle.imgproc_c.specs.Exports.{Exports};
ghost use Rattle.imgproc_c.specs.Operators.{sauvola_from};
ghost use Rattle.image.specs.Answers.{bare};
ghost use Rattle.imgproc.specs.Sauvola.{sauvola};
ghost use Rattle.imgproc.specs.SauvolaNarrow.{sauvola_narrow};

use image::Geometry;
use imgproc::threshold::SauvolaConfig;

#[unsafe(no_mangle)]
pub extern "C" fn imgproc_sauvola_into(
    src: &[u8],
    src_width: usize,
    src_height: usize,
    src_stride: usize,
    dst: &mut [u8],
    dst_width: usize,
    dst_height: usize,
    dst_stride: usize,
    radius: usize,
    k_milli: u32,
    dynamic_range: u32,
    dark_value: u8,
    light_value: u8,
    workspace: &mut [u64],
) -> u32
    ensures { Exports sauvola
        (record {
          src = src.now;
          source = geometry src_width src_height src_stride;
          dst = dst.old;
          target = geometry dst_width dst_height dst_stride;
          settings = sauvola_from radius k_milli dynamic_range dark_value light_value;
          workspace = workspace.old;
        })
        bare
        result
        (record { dst = dst.new; workspace = workspace.new })
        bare }
{
    let source = Geometry {
        width: src_width,
        height: src_height,
        stride: src_stride,
    };
    let target = Geometry {
        width: dst_width,
        height: dst_height,
        stride: dst_stride,
    };
    let config = SauvolaConfig {
        radius,
        k_milli,
        dynamic_range,
        dark_value,
        light_value,
    };
    image::answer_number(imgproc::threshold::sauvola_into(
        src, source, dst, target, config, workspace,
    ))
}

#[unsafe(no_mangle)]
pub extern "C" fn imgproc_sauvola_narrow_into(
    src: &[u8],
    src_width: usize,
    src_height: usize,
    src_stride: usize,
    dst: &mut [u8],
    dst_width: usize,
    dst_height: usize,
    dst_stride: usize,
    radius: usize,
    k_milli: u32,
    dynamic_range: u32,
    dark_value: u8,
    light_value: u8,
    workspace: &mut [u32],
) -> u32
    ensures { Exports sauvola_narrow
        (record {
          src = src.now;
          source = geometry src_width src_height src_stride;
          dst = dst.old;
          target = geometry dst_width dst_height dst_stride;
          settings = sauvola_from radius k_milli dynamic_range dark_value light_value;
          workspace = workspace.old;
        })
        bare
        result
        (record { dst = dst.new; workspace = workspace.new })
        bare }
{
    let source = Geometry {
        width: src_width,
        height: src_height,
        stride: src_stride,
    };
    let target = Geometry {
        width: dst_width,
        height: dst_height,
        stride: dst_stride,
    };
    let config = SauvolaConfig {
        radius,
        k_milli,
        dynamic_range,
        dark_value,
        light_value,
    };
    image::answer_number(imgproc::threshold::sauvola_narrow_into(
        src, source, dst, target, config, workspace,
    ))
}
