// Exports the layout check, pixels, rows and packed copies.
ghost use Rattle.std.specs.Prelude.{◌≡◌, length};
ghost use Rattle.image.specs.Answers.{answer_number};
ghost use Rattle.image.specs.Layout.{layout_of, layout_answer, pixel_layout, row_layout};
ghost use Rattle.image.specs.Pixel.{value_in};
ghost use Rattle.imgproc_c.specs.Exports.{Tells};
ghost use Rattle.imgproc_c.specs.Picture.{geometry, SetsNumber, RowCopied, PacksNumber, UnpacksNumber};

use crate::answers::told;
use image::{Geometry, Refusal, answer_number};

#[unsafe(no_mangle)]
pub extern "C" fn imgproc_validate_layout(
    len: usize,
    width: usize,
    height: usize,
    stride: usize,
) -> u32
    ensures { result ≡ answer_number (layout_answer (layout_of len (geometry width height stride))) }
{
    let geometry = Geometry {
        width,
        height,
        stride,
    };
    answer_number(image::validate_layout(len, geometry))
}

#[unsafe(no_mangle)]
pub extern "C" fn imgproc_get(
    data: &[u8],
    width: usize,
    height: usize,
    stride: usize,
    x: usize,
    y: usize,
    value: &mut u8,
) -> u32
    ensures { Tells
        (value_in
        (pixel_layout (length «data».now) (geometry width height stride) x y)
        «data».now x y)
        value.old
        result
        value.new }
{
    let geometry = Geometry {
        width,
        height,
        stride,
    };
    told(image::get(data, geometry, x, y), value)
}

#[unsafe(no_mangle)]
pub extern "C" fn imgproc_set(
    data: &mut [u8],
    width: usize,
    height: usize,
    stride: usize,
    x: usize,
    y: usize,
    value: u8,
) -> u32
    ensures { SetsNumber
        «data».old
        (geometry width height stride)
        x
        y
        value
        result
        «data».new }
{
    let geometry = Geometry {
        width,
        height,
        stride,
    };
    answer_number(image::set(data, geometry, x, y, value))
}

#[unsafe(no_mangle)]
pub extern "C" fn imgproc_check_row(
    len: usize,
    width: usize,
    height: usize,
    stride: usize,
    y: usize,
) -> u32
    ensures { result ≡ answer_number (layout_answer (row_layout len (geometry width height stride) y)) }
{
    let geometry = Geometry {
        width,
        height,
        stride,
    };
    answer_number(image::check_row(len, geometry, y))
}

// Copies row y into the first bytes of `out`. An `out` that is shorter than the row is refused with 8.
#[unsafe(no_mangle)]
pub extern "C" fn imgproc_row(
    data: &[u8],
    width: usize,
    height: usize,
    stride: usize,
    y: usize,
    out: &mut [u8],
) -> u32
    ensures { RowCopied
        «data».now
        (geometry width height stride)
        y
        out.old
        result
        out.new }
{
    let geometry = Geometry {
        width,
        height,
        stride,
    };
    if let Err(error) = image::check_row(data.len(), geometry, y) {
        return error.number();
    }
    let line = Geometry {
        width,
        height: 1,
        stride: width,
    };
    answer_number(image::pack(image::row(data, geometry, y), line, out, 0))
}

#[unsafe(no_mangle)]
pub extern "C" fn imgproc_pack(
    src: &[u8],
    width: usize,
    height: usize,
    stride: usize,
    workspace: &mut [u8],
    at: usize,
) -> u32
    ensures { PacksNumber
        src.now
        (geometry width height stride)
        at
        workspace.old
        result
        workspace.new }
{
    let geometry = Geometry {
        width,
        height,
        stride,
    };
    answer_number(image::pack(src, geometry, workspace, at))
}

#[unsafe(no_mangle)]
pub extern "C" fn imgproc_unpack(
    workspace: &[u8],
    at: usize,
    dst: &mut [u8],
    width: usize,
    height: usize,
    stride: usize,
) -> u32
    ensures { UnpacksNumber
        workspace.now
        at
        dst.old
        (geometry width height stride)
        result
        dst.new }
{
    let geometry = Geometry {
        width,
        height,
        stride,
    };
    answer_number(image::unpack(workspace, at, dst, geometry))
}
