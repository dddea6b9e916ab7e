// Divides a picture by its background, which is its own closing: that takes a smooth shade away.
ghost use Rattle.std.specs.Prelude.{◌≡◌, ◌≤◌, ◌<◌};
ghost use Rattle.imgproc.specs.Refusals.{first, division_settings, element_and_room};
ghost use Rattle.imgproc.specs.Division.{
  division_defaults,
  quotient,
  PlaneReady,
  PlaneDivided,
  FlattenReady,
  Flattened,
  DivideReady,
  division,
};
ghost use Rattle.imgproc.specs.Calls.{Serves, Works};
ghost use Rattle.imgproc.specs.MorphologyCalls.{compared_answer};

use crate::ImgProcError;
use crate::morphology::bad_kernel;
use crate::morphology::rect::morph_rect_twice;
use crate::morphology::sweeps::Planes;
use crate::morphology::tally::{Tally, start};
use crate::pair::check_pair;
use image::{Geometry, Gray8View};

// The settings of a division.
#[derive(Clone, Copy)]
pub struct BackgroundDivideConfig {
    pub structuring_element: usize,
    pub target_luma: u8,
    pub denominator_floor: u8,
}

// The settings that the published Rust has by default.
impl Default for BackgroundDivideConfig {
    ghost is_default = { λ c. c ≡ division_defaults };

    fn default() -> Self {
        Self {
            structuring_element: 31,
            target_luma: 200,
            denominator_floor: 8,
        }
    }
}

// Divides one pixel. It raises the background to the floor first, and keeps the operands of the quotient narrow.
fn divide(source: u8, background: u8, config: BackgroundDivideConfig) -> u8
    requires { 0 < config.denominator_floor }
    ensures { result ≡ quotient config source background }
{
    let denominator = background.max(config.denominator_floor);
    let value = u16::from(source) * u16::from(config.target_luma) / u16::from(denominator);
    value.min(255) as u8
}

// Replaces each background of the packed plane at `at` by the quotient of its pixel in the packed plane at `from`.
pub(crate) fn divide_plane(
    config: BackgroundDivideConfig,
    workspace: &mut [u8],
    from: usize,
    at: usize,
    count: usize,
)
    requires { PlaneReady config from at count workspace.old }
    ensures { PlaneDivided config from at count workspace.old workspace.new }
{
    for i in 0..count {
        workspace[at + i] = divide(workspace[from + i], workspace[at + i], config);
    }
}

// Packs the picture into the first plane of the workspace, and closes and divides it in the second.
pub(crate) fn flatten(
    tally: Tally,
    source: Gray8View<'_>,
    config: BackgroundDivideConfig,
    workspace: &mut [u8],
) -> Tally
    requires { FlattenReady tally source.geometry config workspace.old }
    ensures { Flattened tally source.entry.pixels.now source.entry.geometry config workspace.old
        result
        workspace.new }
{
    let width = source.geometry.width;
    let height = source.geometry.height;
    let plane = width * height;
    let spare = 2 * plane;
    let element = config.structuring_element;
    let _ = source.pack(workspace, 0);
    let planes = Planes {
        from: 0,
        to: plane,
        spare,
        width,
        height,
    };
    let raised = morph_rect_twice::<false, true>(tally, workspace, planes, element, element);
    divide_plane(config, workspace, 0, plane, plane);
    raised
}

// Does the work of an accepted call: one tally, started at 0, goes through the closing.
fn divide_picture(
    source: Gray8View<'_>,
    dst: &mut [u8],
    dst_geometry: Geometry,
    config: BackgroundDivideConfig,
    workspace: &mut [u8],
) -> Tally
    requires { DivideReady
        (record {
          src = source.pixels.now;
          source = source.geometry;
          dst = dst.old;
          target = dst_geometry;
          settings = config;
          workspace = workspace.old;
        }) }
    ensures { Works division
        (record {
          src = source.entry.pixels.now;
          source = source.entry.geometry;
          dst = dst.old;
          target = dst_geometry;
          settings = config;
          workspace = workspace.old;
        })
        result
        (record { dst = dst.new; workspace = workspace.new }) }
{
    let plane = source.geometry.width * source.geometry.height;
    let tally = flatten(start(), source, config, workspace);
    let _ = image::unpack(workspace, plane, dst, dst_geometry);
    tally
}

// Accepts settings that are in range: a bad element is 7 here, and not a bad kernel.
#[tactic(auto, unfolding(crate::specs::Refusals::first, crate::specs::Refusals::division_settings))]
pub(crate) fn check_settings(config: BackgroundDivideConfig) -> Result<(), ImgProcError>
    ensures { result ≡ first (division_settings config) }
{
    if bad_kernel(config.structuring_element) || config.denominator_floor == 0 {
        return Err(ImgProcError::InvalidConfiguration);
    }
    Ok(())
}

// Accepts settings in range, and then a workspace of seven planes.
#[tactic(auto, unfolding(crate::specs::Refusals::first), using(crate::specs::RefusalLaws::then_accepted))]
fn check_division(
    config: BackgroundDivideConfig,
    source: Gray8View<'_>,
    room: usize,
) -> Result<(), ImgProcError>
    ensures { result ≡ first (element_and_room config source.entry.geometry room) }
{
    let geometry = source.geometry;
    check_settings(config)?;
    if room < 7 * (geometry.width * geometry.height) {
        return Err(ImgProcError::WorkspaceTooSmall);
    }
    Ok(())
}

// Divides a picture by its closing into the rows of the destination.
pub fn background_divide_into(
    src: &[u8],
    src_geometry: Geometry,
    dst: &mut [u8],
    dst_geometry: Geometry,
    config: BackgroundDivideConfig,
    workspace: &mut [u8],
) -> Result<Tally, ImgProcError>
    ensures { Serves division
        (record {
          src = src.now;
          source = src_geometry;
          dst = dst.old;
          target = dst_geometry;
          settings = config;
          workspace = workspace.old;
        })
        (compared_answer result)
        (record { dst = dst.new; workspace = workspace.new }) }
{
    let source = check_pair(src, src_geometry, dst.len(), dst_geometry)?;
    check_division(config, source, workspace.len())?;
    Ok(divide_picture(source, dst, dst_geometry, config, workspace))
}
