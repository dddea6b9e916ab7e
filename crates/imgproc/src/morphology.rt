// Erodes, dilates, opens and closes grey pictures with an odd square kernel, from a strided source to a strided
// destination.
pub(crate) mod rect;
pub(crate) mod sweeps;
pub mod tally;

ghost use Rattle.std.specs.Prelude.{◌≡◌};
ghost use Rattle.imgproc.specs.Refusals.{bad_kernel, first, kernel_and_room};
ghost use Rattle.imgproc.specs.MorphologyCalls.{OperateReady, Operated, CountReady, Counts, RunReady};
ghost use Rattle.imgproc.specs.MorphologyCalls.{compared_answer, morphology, erosion, dilation, opening, closing};
ghost use Rattle.imgproc.specs.Calls.{Serves, Works};

use crate::ImgProcError;
use crate::morphology::rect::{morph_rect_into, morph_rect_twice};
use crate::morphology::sweeps::Planes;
use crate::morphology::tally::{Tally, start};
use crate::pair::check_pair;
use image::{Geometry, Gray8View};

// The four operations; `operate` alone asks which. The contracts are by cases of this enum. With a closure in its
// place they could name only the closure's `post`, and a trait would take four types and four impls.
#[derive(Clone, Copy)]
enum Operation {
    Erode,
    Dilate,
    Open,
    Close,
}

// Operates on the first plane of the workspace, and leaves the picture in the second.
fn operate(
    tally: Tally,
    ws: &mut [u8],
    kernel: usize,
    width: usize,
    height: usize,
    operation: Operation,
) -> Tally
    requires { OperateReady tally ws.old kernel width height }
    ensures { Operated operation tally ws.old kernel width height result ws.new }
{
    let to = width * height;
    let spare = 2 * to;
    let planes = Planes {
        from: 0,
        to,
        spare,
        width,
        height,
    };
    match operation {
        Operation::Erode => morph_rect_into::<true>(tally, ws, planes, kernel, kernel),
        Operation::Dilate => morph_rect_into::<false>(tally, ws, planes, kernel, kernel),
        Operation::Open => morph_rect_twice::<true, false>(tally, ws, planes, kernel, kernel),
        Operation::Close => morph_rect_twice::<false, true>(tally, ws, planes, kernel, kernel),
    }
}

// Starts a tally at 0 and takes it through an operation.
fn count(ws: &mut [u8], kernel: usize, width: usize, height: usize, operation: Operation) -> Tally
    requires { CountReady ws.old kernel width height }
    ensures { Counts operation ws.old kernel width height result ws.new }
{
    operate(start(), ws, kernel, width, height, operation)
}

// Does the work of an accepted call: packs the source, operates on it and paints the destination.
fn run(
    source: Gray8View<'_>,
    dst: &mut [u8],
    dst_geometry: Geometry,
    kernel: usize,
    operation: Operation,
    workspace: &mut [u8],
) -> Tally
    requires { RunReady
        (record {
          src = source.pixels.now;
          source = source.geometry;
          dst = dst.old;
          target = dst_geometry;
          settings = kernel;
          workspace = workspace.old;
        }) }
    ensures { Works (morphology operation)
        (record {
          src = source.entry.pixels.now;
          source = source.entry.geometry;
          dst = dst.old;
          target = dst_geometry;
          settings = kernel;
          workspace = workspace.old;
        })
        result
        (record { dst = dst.new; workspace = workspace.new }) }
{
    let width = source.geometry.width;
    let height = source.geometry.height;
    let _ = source.pack(workspace, 0);
    let tally = count(workspace, kernel, width, height, operation);
    let _ = image::unpack(workspace, width * height, dst, dst_geometry);
    tally
}

// Finds out whether a kernel is below 3 or even.
pub(crate) fn bad_kernel(kernel: usize) -> bool
    ensures { result ≡ bad_kernel kernel }
{
    kernel < 3 || kernel % 2 == 0
}

// Accepts a kernel that is odd and 3 at least, and then a workspace of six planes.
#[tactic(auto, unfolding(crate::specs::Refusals::first))]
fn check_kernel(kernel: usize, source: Gray8View<'_>, room: usize) -> Result<(), ImgProcError>
    ensures { result ≡ first (kernel_and_room kernel source.entry.geometry room) }
{
    let geometry = source.geometry;
    if bad_kernel(kernel) {
        return Err(ImgProcError::InvalidKernel);
    }
    if room < 6 * (geometry.width * geometry.height) {
        return Err(ImgProcError::WorkspaceTooSmall);
    }
    Ok(())
}

// Refuses a call by its conditions, in order, and else does its work.
fn apply_into(
    src: &[u8],
    src_geometry: Geometry,
    dst: &mut [u8],
    dst_geometry: Geometry,
    kernel_size: usize,
    operation: Operation,
    workspace: &mut [u8],
) -> Result<Tally, ImgProcError>
    ensures { Serves (morphology operation)
        (record {
          src = src.now;
          source = src_geometry;
          dst = dst.old;
          target = dst_geometry;
          settings = kernel_size;
          workspace = workspace.old;
        })
        (compared_answer result)
        (record { dst = dst.new; workspace = workspace.new }) }
{
    let source = check_pair(src, src_geometry, dst.len(), dst_geometry)?;
    check_kernel(kernel_size, source, workspace.len())?;
    Ok(run(source, dst, dst_geometry, kernel_size, operation, workspace))
}

// The four calls differ in their operation alone. They keep the Rust's four names, which the exports to C repeat.

// Erodes: takes the minimum over each reach.
pub fn grayscale_erode_into(
    src: &[u8],
    src_geometry: Geometry,
    dst: &mut [u8],
    dst_geometry: Geometry,
    kernel_size: usize,
    workspace: &mut [u8],
) -> Result<Tally, ImgProcError>
    ensures { Serves erosion
        (record {
          src = src.now;
          source = src_geometry;
          dst = dst.old;
          target = dst_geometry;
          settings = kernel_size;
          workspace = workspace.old;
        })
        (compared_answer result)
        (record { dst = dst.new; workspace = workspace.new }) }
{
    apply_into(
        src,
        src_geometry,
        dst,
        dst_geometry,
        kernel_size,
        Operation::Erode,
        workspace,
    )
}

// Dilates: takes the maximum over each reach.
pub fn grayscale_dilate_into(
    src: &[u8],
    src_geometry: Geometry,
    dst: &mut [u8],
    dst_geometry: Geometry,
    kernel_size: usize,
    workspace: &mut [u8],
) -> Result<Tally, ImgProcError>
    ensures { Serves dilation
        (record {
          src = src.now;
          source = src_geometry;
          dst = dst.old;
          target = dst_geometry;
          settings = kernel_size;
          workspace = workspace.old;
        })
        (compared_answer result)
        (record { dst = dst.new; workspace = workspace.new }) }
{
    apply_into(
        src,
        src_geometry,
        dst,
        dst_geometry,
        kernel_size,
        Operation::Dilate,
        workspace,
    )
}

// Opens: erodes, then dilates.
pub fn grayscale_open_into(
    src: &[u8],
    src_geometry: Geometry,
    dst: &mut [u8],
    dst_geometry: Geometry,
    kernel_size: usize,
    workspace: &mut [u8],
) -> Result<Tally, ImgProcError>
    ensures { Serves opening
        (record {
          src = src.now;
          source = src_geometry;
          dst = dst.old;
          target = dst_geometry;
          settings = kernel_size;
          workspace = workspace.old;
        })
        (compared_answer result)
        (record { dst = dst.new; workspace = workspace.new }) }
{
    apply_into(
        src,
        src_geometry,
        dst,
        dst_geometry,
        kernel_size,
        Operation::Open,
        workspace,
    )
}

// Closes: dilates, then erodes.
pub fn grayscale_close_into(
    src: &[u8],
    src_geometry: Geometry,
    dst: &mut [u8],
    dst_geometry: Geometry,
    kernel_size: usize,
    workspace: &mut [u8],
) -> Result<Tally, ImgProcError>
    ensures { Serves closing
        (record {
          src = src.now;
          source = src_geometry;
          dst = dst.old;
          target = dst_geometry;
          settings = kernel_size;
          workspace = workspace.old;
        })
        (compared_answer result)
        (record { dst = dst.new; workspace = workspace.new }) }
{
    apply_into(
        src,
        src_geometry,
        dst,
        dst_geometry,
        kernel_size,
        Operation::Close,
        workspace,
    )
}
