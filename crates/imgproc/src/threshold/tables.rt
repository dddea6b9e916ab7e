// Builds two summed-area tables (Crow 1984) of a picture in one lent workspace: the sums from `at` on, then the sums of
// squares, (w + 1)(h + 1) entries each. Entry (x, y) is the sum over the pixels left of x and above y.
ghost use Rattle.std.specs.Prelude.{◌≡◌, ◌+◌, ◌≤◌, ◌<◌, length};
ghost use Rattle.imgproc.specs.Refusals.{table_entries};
ghost use Rattle.imgproc.specs.Tables.{wide_modulus, TableRows, Tables, Corners, Unwrapped, corner_sum};

use crate::reach::Area;
use image::Gray8View;

// Writes the row of zeros above the picture, in both tables.
// One loop writes both: the compiler makes a call of C's `memset` of std's `fill`, and the static library needs no name
// from outside.
fn table_top(source: Gray8View<'_>, workspace: &mut [u64], at: usize)
    requires { at + table_entries source.geometry.width source.geometry.height ≤ length workspace.old }
    ensures { TableRows wide_modulus source.entry.pixels.now source.entry.geometry at 1 workspace.new }
{
    let wide = source.geometry.width + 1;
    let squares = at + wide * (source.geometry.height + 1);
    for i in 0..wide {
        workspace[at + i] = 0;
        workspace[squares + i] = 0;
    }
}

// Writes the row of both tables below row y of the picture: the entry above, and the row's sums so far.
fn table_row(source: Gray8View<'_>, y: usize, workspace: &mut [u64], at: usize)
    requires { (y < source.geometry.height)
        × TableRows wide_modulus source.pixels.now source.geometry at (y + 1) workspace.old }
    ensures { TableRows wide_modulus source.entry.pixels.now source.entry.geometry at (y + 2) workspace.new }
{
    let wide = source.geometry.width + 1;
    let squares = at + wide * (source.geometry.height + 1);
    let above = y * wide;
    let below = above + wide;
    workspace[at + below] = 0;
    workspace[squares + below] = 0;
    let mut sum: u64 = 0;
    let mut sum_sq: u64 = 0;
    for (i, pixel) in source.row(y).iter().enumerate() {
        let x = i + 1;
        let value = u64::from(*pixel);
        sum += value;
        sum_sq += value * value;
        let s = workspace[at + (above + x)] + sum;
        let q = workspace[squares + (above + x)] + sum_sq;
        workspace[at + (below + x)] = s;
        workspace[squares + (below + x)] = q;
    }
}

// Builds both tables of a picture, from `at` on.
pub(crate) fn build_tables(source: Gray8View<'_>, workspace: &mut [u64], at: usize)
    requires { at + table_entries source.geometry.width source.geometry.height ≤ length workspace.old }
    ensures { Tables wide_modulus source.entry.pixels.now source.entry.geometry at workspace.new }
{
    table_top(source, workspace, at);
    for y in 0..source.geometry.height {
        table_row(source, y, workspace, at);
    }
}

// Sums the pixels of an area by the four corners that it has in the table which starts at `base`.
pub(crate) fn rect_sum(workspace: &[u64], base: usize, wide: usize, area: Area) -> u64
    requires { Corners workspace.now base wide area.left area.top (area.right + 1) (area.bottom + 1)
        × Unwrapped workspace.now base wide area.left area.top (area.right + 1) (area.bottom + 1) }
    ensures { result
        ≡ corner_sum wide_modulus workspace.now base wide area.left area.top (area.right + 1) (area.bottom + 1) }
{
    let x0 = area.left;
    let x1 = area.right + 1;
    let top = area.top * wide;
    let bottom = area.bottom * wide + wide;
    let plus = workspace[base + (bottom + x1)] + workspace[base + (top + x0)];
    let minus = workspace[base + (bottom + x0)] + workspace[base + (top + x1)];
    plus - minus
}
