// Grey pictures. A picture is a lent byte slice and a geometry by value: pixel (x, y) is the byte at y * stride + x,
// and the last row needs no padding. No public call has a condition: a picture that its slice does not hold is refused.
#![tactic(auto)]

pub mod refusal;
pub mod view;

ghost use Rattle.std.specs.Prelude.{◌≡◌, ◌+◌, ◌*◌, ◌≤◌, length};
ghost use Rattle.image.specs.Layout.{layout_of, pixel_layout, row_layout, number_of, Kept};
ghost use Rattle.image.specs.declared.CopyError.TheVariants.{Image};
ghost use Rattle.image.specs.Answers.{answered};
ghost use Rattle.image.specs.Pixel.{value_in, Sets};
ghost use Rattle.image.specs.Row.{Hands, as_bor};
ghost use Rattle.image.specs.Copy.{copy_number, Packs, Unpacks};
ghost use Rattle.image.specs.Plane.{painted_on, part};

pub use refusal::{Refusal, answer_number};
pub use view::Gray8View;

// The largest side of a picture.
pub const MAX_SIDE: usize = 4096;

// Where a picture lies in its slice: `height` rows of `width` bytes, and row y starts at y * stride.
#[derive(Clone, Copy)]
pub struct Geometry {
    pub width: usize,
    pub height: usize,
    pub stride: usize,
}

// Why a picture, or a place in it, is refused.
#[derive(Clone, Copy, PartialEq, Eq)]
pub enum LumaError {
    EmptyDimensions,
    StrideTooSmall,
    BufferTooSmall,
    SideTooLarge,
    OutsidePicture,
}

impl Refusal for LumaError {
    ghost number_of = { number_of };

    fn number(self) -> u32 {
        match self {
            LumaError::EmptyDimensions => 1,
            LumaError::StrideTooSmall => 2,
            LumaError::BufferTooSmall => 3,
            LumaError::SideTooLarge => 4,
            LumaError::OutsidePicture => 9,
        }
    }
}

// Why rows are not copied: the picture is refused, or the packed plane does not lie in the workspace.
#[derive(Clone, Copy, PartialEq, Eq)]
pub enum CopyError {
    Image(LumaError),
    WorkspaceTooSmall,
}

impl From<LumaError> for CopyError {
    ghost from_gives = { λ e c. c ≡ Image e };

    fn from(error: LumaError) -> CopyError {
        CopyError::Image(error)
    }
}

impl Refusal for CopyError {
    ghost number_of = { copy_number };

    fn number(self) -> u32 {
        match self {
            CopyError::Image(error) => error.number(),
            CopyError::WorkspaceTooSmall => 8,
        }
    }
}

// Checks that a slice of `len` bytes holds the picture. It tests the length by a quotient, so that nothing wraps.
pub fn validate_layout(len: usize, geometry: Geometry) -> Result<Geometry, LumaError>
    ensures { result ≡ layout_of len geometry }
{
    let width = geometry.width;
    let height = geometry.height;
    let stride = geometry.stride;
    if width == 0 {
        return Err(LumaError::EmptyDimensions);
    }
    if height == 0 {
        return Err(LumaError::EmptyDimensions);
    }
    if stride < width {
        return Err(LumaError::StrideTooSmall);
    }
    if len < width {
        return Err(LumaError::BufferTooSmall);
    }
    if (len - width) / stride < height - 1 {
        return Err(LumaError::BufferTooSmall);
    }
    if MAX_SIDE < width {
        return Err(LumaError::SideTooLarge);
    }
    if MAX_SIDE < height {
        return Err(LumaError::SideTooLarge);
    }
    Ok(geometry)
}

// Checks the layout in a slice of `len` bytes, and then that pixel (x, y) lies in the picture.
pub fn check_pixel(
    len: usize,
    geometry: Geometry,
    x: usize,
    y: usize,
) -> Result<Geometry, LumaError>
    ensures { result ≡ pixel_layout len geometry x y }
{
    let g = validate_layout(len, geometry)?;
    if g.width <= x {
        return Err(LumaError::OutsidePicture);
    }
    if g.height <= y {
        return Err(LumaError::OutsidePicture);
    }
    Ok(g)
}

// Checks the layout in a slice of `len` bytes, and then that row y lies in the picture.
pub fn check_row(len: usize, geometry: Geometry, y: usize) -> Result<Geometry, LumaError>
    ensures { result ≡ row_layout len geometry y }
{
    let g = validate_layout(len, geometry)?;
    if g.height <= y {
        return Err(LumaError::OutsidePicture);
    }
    Ok(g)
}

// Reads pixel (x, y).
pub fn get(data: &[u8], geometry: Geometry, x: usize, y: usize) -> Result<u8, LumaError>
    ensures { answered number_of result
        ≡ value_in (pixel_layout (length «data».now) geometry x y) «data».now x y }
{
    let g = check_pixel(data.len(), geometry, x, y)?;
    Ok(data[y * g.stride + x])
}

// Writes pixel (x, y), and no other byte.
pub fn set(
    data: &mut [u8],
    geometry: Geometry,
    x: usize,
    y: usize,
    value: u8,
) -> Result<(), LumaError>
    ensures { Sets «data».old geometry x y value (answered number_of result) «data».new }
{
    let g = check_pixel(data.len(), geometry, x, y)?;
    data[y * g.stride + x] = value;
    Ok(())
}

// Hands out row y, the caller's own bytes where they stand; an empty part where `check_row` refuses, since the call is
// promised not to fail. It and `row_mut` stand side by side, as `&` and `&mut` do everywhere: nothing is generic over
// them.
pub fn row(data: &[u8], geometry: Geometry, y: usize) -> &[u8]
    ensures { Hands «data».entry geometry y result }
{
    let Ok(view) = Gray8View::new(data, geometry) else {
        return &data[0..0];
    };
    view.row(y)
}

// Hands out row y of a destination to be written; an empty part where `check_row` refuses.
pub fn row_mut(data: &mut [u8], geometry: Geometry, y: usize) -> &mut [u8]
    ensures { Hands (as_bor «data».entry) geometry y (as_bor result) }
{
    let Ok(g) = check_row(data.len(), geometry, y) else {
        return &mut data[0..0];
    };
    let start = y * g.stride;
    let end = start + g.width;
    &mut data[start..end]
}

// Copies the bytes of a row over as many others. It is a loop and not std's copy, which asks the linker for C's `memmove`:
// the static library needs no name from outside.
pub(crate) fn copy_row(src: &[u8], dst: &mut [u8])
    requires { length dst.old ≡ length src.now }
    ensures { dst.new ≡ src.now }
{
    for (i, value) in src.iter().enumerate() {
        dst[i] = *value;
    }
}

// Copies the packed plane that starts at `at` of the workspace into the rows of a picture. A destination and its
// geometry stay two parameters, here and wherever one is passed on: the borrow checker covers no struct with a `&mut`
// slice inside that is passed on by value, and were it lent, each contract would have to say that both stay.
fn unpack_rows(workspace: &[u8], at: usize, dst: &mut [u8], geometry: Geometry)
    requires { Kept (length dst.old) geometry
        × (at + geometry.width * geometry.height ≤ length workspace.now) }
    ensures { dst.new
        ≡ painted_on dst.old geometry
        (part at (geometry.width * geometry.height) workspace.now) }
{
    let width = geometry.width;
    let height = geometry.height;
    let stride = geometry.stride;
    for y in 0..height {
        let from = at + y * width;
        let from_end = from + width;
        let start = y * stride;
        let end = start + width;
        copy_row(&workspace[from..from_end], &mut dst[start..end]);
    }
}

// Copies the rows of a strided picture into a packed plane of the workspace, which starts at `at`.
pub fn pack(
    src: &[u8],
    geometry: Geometry,
    workspace: &mut [u8],
    at: usize,
) -> Result<(), CopyError>
    ensures { Packs src.now geometry at workspace.old
        (answered copy_number result) workspace.new }
{
    Gray8View::new(src, geometry)?.pack(workspace, at)
}

// Copies a packed plane of the workspace, which starts at `at`, into the rows of a strided picture.
pub fn unpack(
    workspace: &[u8],
    at: usize,
    dst: &mut [u8],
    geometry: Geometry,
) -> Result<(), CopyError>
    ensures { Unpacks workspace.now at dst.old geometry
        (answered copy_number result) dst.new }
{
    let g = validate_layout(dst.len(), geometry)?;
    let width = g.width;
    let height = g.height;
    if workspace.len() < at {
        return Err(CopyError::WorkspaceTooSmall);
    }
    if workspace.len() - at < width * height {
        return Err(CopyError::WorkspaceTooSmall);
    }
    unpack_rows(workspace, at, dst, g);
    Ok(())
}
