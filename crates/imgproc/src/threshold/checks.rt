// Checks what a Sauvola call asks for after both pictures: its settings, its largest window if its tables have entries
// of 32 bits, and its workspace.
ghost use Rattle.std.specs.Prelude.{◌≡◌, ◌+◌, ◌*◌, min};
ghost use Rattle.imgproc.specs.Refusals.{first, sauvola_settings, tables_room, settings_and_room};
ghost use Rattle.imgproc.specs.SauvolaNarrow.{window_condition, narrow_settings_and_room};

use crate::ImgProcError;
use crate::threshold::config::SauvolaConfig;
use image::Gray8View;

// Accepts settings that are in range.
#[tactic(auto, unfolding(crate::specs::Refusals::first, crate::specs::Refusals::sauvola_settings))]
pub(crate) fn check_settings(config: SauvolaConfig) -> Result<(), ImgProcError>
    ensures { result ≡ first (sauvola_settings config) }
{
    if config.radius == 0 || config.k_milli > 1000 || config.dynamic_range == 0 {
        return Err(ImgProcError::InvalidConfiguration);
    }
    Ok(())
}

// The most pixels that a window of the narrow call may have: 32 bits hold the sum of their squares.
const WINDOW_LIMIT: usize = 66_051;

// Returns the most pixels that a window has along a line of n. The radius may be any number, so the sum saturates.
fn window_side(radius: usize, n: usize) -> usize
    ensures { result ≡ min (2 * radius + 1) n }
{
    n.min(radius.saturating_mul(2).saturating_add(1))
}

// Accepts a radius whose largest window in the picture is within the limit.
#[tactic(auto, unfolding(crate::specs::Refusals::first))]
fn check_window(config: SauvolaConfig, source: Gray8View<'_>) -> Result<(), ImgProcError>
    ensures { result ≡ first (window_condition config.radius source.entry.geometry.width source.entry.geometry.height) }
{
    let geometry = source.geometry;
    let across = window_side(config.radius, geometry.width);
    if across * window_side(config.radius, geometry.height) > WINDOW_LIMIT {
        return Err(ImgProcError::WindowTooLarge);
    }
    Ok(())
}

// Accepts a workspace that holds both tables of a picture.
#[tactic(auto, unfolding(crate::specs::Refusals::first))]
fn check_tables(source: Gray8View<'_>, room: usize) -> Result<(), ImgProcError>
    ensures { result ≡ first (tables_room source.entry.geometry room) }
{
    let geometry = source.geometry;
    if room < 2 * ((geometry.width + 1) * (geometry.height + 1)) {
        return Err(ImgProcError::WorkspaceTooSmall);
    }
    Ok(())
}

// Accepts settings in range, and then a workspace that holds both tables.
#[tactic(auto, using(crate::specs::RefusalLaws::then_accepted))]
pub(crate) fn check_room(
    config: SauvolaConfig,
    source: Gray8View<'_>,
    room: usize,
) -> Result<(), ImgProcError>
    ensures { result ≡ first (settings_and_room config source.entry.geometry room) }
{
    check_settings(config)?;
    check_tables(source, room)
}

// Accepts settings in range, then a largest window within the limit, and then the workspace.
pub(crate) fn check_narrow(
    config: SauvolaConfig,
    source: Gray8View<'_>,
    room: usize,
) -> Result<(), ImgProcError>
    ensures { result ≡ first (narrow_settings_and_room config source.entry.geometry room) }
{
    check_settings(config)?;
    check_window(config, source)?;
    check_tables(source, room)
}
