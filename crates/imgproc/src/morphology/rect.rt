// Erodes, dilates, opens and closes packed planes of one lent workspace, at offsets: sweeps the rows, then the columns,
// each with its own kernel. Every comparison of samples is made by `Tally::extreme`, from `sweeps`, and is counted. The
// cores carry the tally by value, and one tally is lent to every sweep of an operation.
ghost use Rattle.imgproc.specs.Sweeps.{SweepReady, RowsSwept, ColumnsSwept, MorphReady, Morphed, PairReady, PairMorphed};

use crate::morphology::sweeps::{Planes, running_extremum_1d, sweep_strip};
use crate::morphology::tally::Tally;

// So many rows are transposed and swept together.
const STRIP: usize = 32;

// Sweeps along each row, from one plane to another or back to the same, strip by strip.
fn row_core<const LEAST: bool>(tally: Tally, ws: &mut [u8], planes: Planes, kernel: usize) -> Tally
    requires { SweepReady tally ws.old planes kernel }
    ensures { RowsSwept tally ws.old planes kernel LEAST result ws.new }
{
    let mut t = tally;
    for y in (0..planes.height).step_by(STRIP) {
        let rows = STRIP.min(planes.height - y);
        t = sweep_strip::<LEAST>(t, ws, planes.strip(y, rows), kernel);
    }
    t
}

// Sweeps along each column, from one plane to another or back to the same.
fn column_core<const LEAST: bool>(
    tally: Tally,
    ws: &mut [u8],
    planes: Planes,
    kernel: usize,
) -> Tally
    requires { SweepReady tally ws.old planes kernel }
    ensures { ColumnsSwept tally ws.old planes kernel LEAST result ws.new }
{
    running_extremum_1d::<LEAST>(tally, ws, planes, kernel)
}

// The sweeps along rows and along columns differ in their contracts, and one function of both would branch to either.

// Raises the lent tally by what the sweep along each row counted.
fn sweep_rows<const LEAST: bool>(tally: &mut Tally, ws: &mut [u8], planes: Planes, kernel: usize)
    requires { SweepReady tally.old ws.old planes kernel }
    ensures { RowsSwept tally.old ws.old planes kernel LEAST tally.new ws.new }
{
    *tally = row_core::<LEAST>(*tally, ws, planes, kernel);
}

// Raises the lent tally by what the sweep along each column counted.
fn sweep_columns<const LEAST: bool>(tally: &mut Tally, ws: &mut [u8], planes: Planes, kernel: usize)
    requires { SweepReady tally.old ws.old planes kernel }
    ensures { ColumnsSwept tally.old ws.old planes kernel LEAST tally.new ws.new }
{
    *tally = column_core::<LEAST>(*tally, ws, planes, kernel);
}

// Erodes where LEAST is true, else dilates: along the rows with one kernel, then along the columns with another. Lends
// the lent tally on to both sweeps.
fn morph_rect<const LEAST: bool>(
    tally: &mut Tally,
    ws: &mut [u8],
    planes: Planes,
    kernel_width: usize,
    kernel_height: usize,
)
    requires { MorphReady tally.old ws.old planes kernel_width kernel_height }
    ensures { Morphed tally.old ws.old planes kernel_width kernel_height LEAST tally.new ws.new }
{
    sweep_rows::<LEAST>(tally, ws, planes, kernel_width);
    sweep_columns::<LEAST>(tally, ws, planes.in_place(), kernel_height);
}

// Erodes where LEAST is true, else dilates. Lends one tally to both sweeps.
pub(crate) fn morph_rect_into<const LEAST: bool>(
    tally: Tally,
    ws: &mut [u8],
    planes: Planes,
    kernel_width: usize,
    kernel_height: usize,
) -> Tally
    requires { MorphReady tally ws.old planes kernel_width kernel_height }
    ensures { Morphed tally ws.old planes kernel_width kernel_height LEAST result ws.new }
{
    let mut t = tally;
    morph_rect::<LEAST>(&mut t, ws, planes, kernel_width, kernel_height);
    t
}

// Erodes or dilates, then erodes or dilates what that left: erodes where FIRST or SECOND is true. So <true, false>
// opens, and <false, true> closes. Lends one tally to all four sweeps.
pub(crate) fn morph_rect_twice<const FIRST: bool, const SECOND: bool>(
    tally: Tally,
    ws: &mut [u8],
    planes: Planes,
    kernel_width: usize,
    kernel_height: usize,
) -> Tally
    requires { PairReady tally ws.old planes kernel_width kernel_height }
    ensures { PairMorphed tally ws.old planes kernel_width kernel_height FIRST SECOND result ws.new }
{
    let mut t = tally;
    morph_rect::<FIRST>(&mut t, ws, planes, kernel_width, kernel_height);
    morph_rect::<SECOND>(&mut t, ws, planes.in_place(), kernel_width, kernel_height);
    t
}
