// What every call from picture to picture checks first: both layouts, and that the sizes are equal.
// The destination goes on as its slice and its geometry (`unpack_rows` of image says why).
ghost use Rattle.std.specs.Prelude.{◌≡◌, length, MatchResult};
ghost use Rattle.imgproc.specs.Refusals.{first, pair_conditions};
ghost use Rattle.imgproc.specs.Calls.{Paired};

use crate::ImgProcError;
use image::{Geometry, Gray8View};

// Checks a source and the layout of a destination, and gives the source's view.
pub(crate) fn check_pair<'a>(
    src: &'a [u8],
    src_geometry: Geometry,
    dst_len: usize,
    dst_geometry: Geometry,
) -> Result<Gray8View<'a>, ImgProcError>
    ensures { MatchResult result
        (λ v. (v.pixels ≡ src.entry) × (v.geometry ≡ src_geometry)
        × Paired (length src.entry.now) src_geometry dst_len dst_geometry)
        (λ e. first (pair_conditions (length src.entry.now) src_geometry dst_len dst_geometry) ≡ Err e) }
{
    let source = Gray8View::new(src, src_geometry)?;
    image::validate_layout(dst_len, dst_geometry)?;
    if src_geometry.width != dst_geometry.width || src_geometry.height != dst_geometry.height {
        return Err(ImgProcError::DimensionMismatch);
    }
    Ok(source)
}
