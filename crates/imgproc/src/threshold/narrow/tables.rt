// Builds the two tables of `threshold/tables.rt` with entries 32 bits wide. Sums run past an entry's end and wrap.
ghost use Rattle.std.specs.Prelude.{◌≡◌, ◌+◌, ◌≤◌, ◌<◌, length};
ghost use Rattle.imgproc.specs.Refusals.{table_entries};
ghost use Rattle.imgproc.specs.Tables.{narrow_modulus, TableRows, Tables, Corners, corner_sum};

use crate::reach::Area;
use image::Gray8View;

// Writes the row of zeros above the picture, in both tables.
fn table_top(source: Gray8View<'_>, workspace: &mut [u32], at: usize)
    requires { at + table_entries source.geometry.width source.geometry.height ≤ length workspace.old }
    ensures { TableRows narrow_modulus source.entry.pixels.now source.entry.geometry at 1 workspace.new }
{
    let wide = source.geometry.width + 1;
    let squares = at + wide * (source.geometry.height + 1);
    for i in 0..wide {
        workspace[at + i] = 0;
        workspace[squares + i] = 0;
    }
}

// Writes the row of both tables below row y of the picture: the entry above, and the row's sums so far.
fn table_row(source: Gray8View<'_>, y: usize, workspace: &mut [u32], at: usize)
    requires { (y < source.geometry.height)
        × TableRows narrow_modulus source.pixels.now source.geometry at (y + 1) workspace.old }
    ensures { TableRows narrow_modulus source.entry.pixels.now source.entry.geometry at (y + 2) workspace.new }
{
    let wide = source.geometry.width + 1;
    let squares = at + wide * (source.geometry.height + 1);
    let above = y * wide;
    let below = above + wide;
    workspace[at + below] = 0;
    workspace[squares + below] = 0;
    let mut sum: u32 = 0;
    let mut sum_sq: u32 = 0;
    for (i, pixel) in source.row(y).iter().enumerate() {
        let x = i + 1;
        let value = u32::from(*pixel);
        sum = sum.wrapping_add(value);
        sum_sq = sum_sq.wrapping_add(value * value);
        let s = workspace[at + (above + x)].wrapping_add(sum);
        let q = workspace[squares + (above + x)].wrapping_add(sum_sq);
        workspace[at + (below + x)] = s;
        workspace[squares + (below + x)] = q;
    }
}

// Builds both tables of a picture, from `at` on.
pub(crate) fn build_tables(source: Gray8View<'_>, workspace: &mut [u32], at: usize)
    requires { at + table_entries source.geometry.width source.geometry.height ≤ length workspace.old }
    ensures { Tables narrow_modulus source.entry.pixels.now source.entry.geometry at workspace.new }
{
    table_top(source, workspace, at);
    for y in 0..source.geometry.height {
        table_row(source, y, workspace, at);
    }
}

// Sums the pixels of an area, modulo 2^32, by the four corners that it has in the table which starts at `base`.
pub(crate) fn rect_sum(workspace: &[u32], base: usize, wide: usize, area: Area) -> u32
    requires { Corners workspace.now base wide area.left area.top (area.right + 1) (area.bottom + 1) }
    ensures { result
        ≡ corner_sum narrow_modulus workspace.now base wide area.left area.top (area.right + 1) (area.bottom + 1) }
{
    let x0 = area.left;
    let x1 = area.right + 1;
    let top = area.top * wide;
    let bottom = area.bottom * wide + wide;
    let plus = workspace[base + (bottom + x1)].wrapping_add(workspace[base + (top + x0)]);
    let minus = workspace[base + (bottom + x0)].wrapping_add(workspace[base + (top + x1)]);
    plus.wrapping_sub(minus)
}
