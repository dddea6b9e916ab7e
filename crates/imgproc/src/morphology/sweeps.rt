// Slides extremes along lines (van Herk; Gil and Werman), over planes of one lent workspace at offsets. A plane has
// `height` lines of `width` lanes each. Every lane is swept at once, so that the inner loops are plain counted ones.
ghost use Rattle.std.specs.Prelude.{◌≡◌, ◌+◌, ◌*◌, ◌^◌, ◌<◌, ◌≤◌, length, get_or};
ghost use Rattle.imgproc.specs.Sweeps.{
  area,
  planes_in_place,
  strip_of,
  transposed,
  lane,
  Apart,
  Rowed,
  LanesReady,
  LanesMet,
  PassReady,
  ForwardPassed,
  BackwardPassed,
  JoinPassed,
  LinesReady,
  LinesSwept,
  TransposeReady,
  Transposed,
  SweepReady,
  RowsSwept,
};

use crate::morphology::tally::Tally;
use crate::reach;

// Tells a sweep where it works, by offsets of one workspace: it reads the plane at `from`, writes the plane at `to`,
// and has its scratch at `spare`. Each plane has `height` rows of `width` samples.
// The tally and the kernel stay parameters beside it: behind a `&mut` of a struct the loops over a tally do not
// vectorise, the rules of the tally follow it as a parameter alone, and one erosion has two kernels.
#[derive(Clone, Copy)]
pub(crate) struct Planes {
    pub from: usize,
    pub to: usize,
    pub spare: usize,
    pub width: usize,
    pub height: usize,
}

impl Planes {
    // Stays on the plane that is written, to go on from what it holds.
    pub(crate) fn in_place(self) -> Planes
        ensures { result ≡ planes_in_place self }
    {
        Planes {
            from: self.to,
            ..self
        }
    }

    // Keeps to so many rows, from row y on.
    pub(crate) fn strip(self, y: usize, rows: usize) -> Planes
        requires { (self.from + y * self.width < 2 ^ 64) × (self.to + y * self.width < 2 ^ 64) }
        ensures { result ≡ strip_of self y rows }
    {
        let at = y * self.width;
        Planes {
            from: self.from + at,
            to: self.to + at,
            height: rows,
            ..self
        }
    }

    // Moves to the scratch, where the rows stand transposed to lanes.
    fn transposed(self) -> Planes
        requires { self.spare + area self < 2 ^ 64 }
        ensures { result ≡ transposed self }
    {
        Planes {
            from: self.spare,
            to: self.spare,
            spare: self.spare + self.width * self.height,
            width: self.height,
            height: self.width,
        }
    }
}

// Copies a row of lanes.
fn copy_lanes(ws: &mut [u8], from: usize, to: usize, lanes: usize)
    requires { (from + lanes ≤ length ws.old) × (to + lanes ≤ length ws.old) × Apart from lanes to lanes }
    ensures { Rowed to lanes (λ x. get_or ws.old (from + x) 0) ws.old ws.new }
{
    for x in 0..lanes {
        ws[to + x] = ws[from + x];
    }
}

// Writes a row of lanes at `to`: each gets the extreme of its samples at `a` and at `b`.
fn meet_lanes<const LEAST: bool>(
    tally: Tally,
    ws: &mut [u8],
    a: usize,
    b: usize,
    to: usize,
    lanes: usize,
) -> Tally
    requires { LanesReady tally ws.old a b to lanes }
    ensures { LanesMet tally ws.old a b to lanes LEAST result ws.new }
{
    let mut t = tally;
    for x in 0..lanes {
        let met = t.extreme::<LEAST>(ws[a + x], ws[b + x]);
        t = met.counted();
        ws[to + x] = met.chosen();
    }
    t
}

// Walks forward, from the plane that is read to the first half of the scratch: each line meets the extreme so far of
// its block.
fn forward_pass<const LEAST: bool>(
    tally: Tally,
    ws: &mut [u8],
    planes: Planes,
    kernel: usize,
) -> Tally
    requires { PassReady tally ws.old planes kernel }
    ensures { ForwardPassed tally ws.old planes kernel LEAST result ws.new }
{
    let from = planes.from;
    let to = planes.spare;
    let width = planes.width;
    let height = planes.height;
    let mut t = tally;
    for y in 0..height {
        let at = y * width;
        if y % kernel == 0 {
            copy_lanes(ws, from + at, to + at, width);
        } else {
            t = meet_lanes::<LEAST>(t, ws, to + (at - width), from + at, to + at, width);
        }
    }
    t
}

// Walks backward, from the plane that is read to the second half of the scratch: each line meets the extreme of the
// rest of its block.
fn backward_pass<const LEAST: bool>(
    tally: Tally,
    ws: &mut [u8],
    planes: Planes,
    kernel: usize,
) -> Tally
    requires { PassReady tally ws.old planes kernel }
    ensures { BackwardPassed tally ws.old planes kernel LEAST result ws.new }
{
    let from = planes.from;
    let width = planes.width;
    let height = planes.height;
    let to = planes.spare + width * height;
    let mut t = tally;
    for y in (0..height).rev() {
        let at = y * width;
        if y % kernel == kernel - 1 || y == height - 1 {
            copy_lanes(ws, from + at, to + at, width);
        } else {
            t = meet_lanes::<LEAST>(t, ws, to + (at + width), from + at, to + at, width);
        }
    }
    t
}

// Joins both, to the plane that is written: the backward extreme at low meets the forward one at high.
fn join_pass<const LEAST: bool>(tally: Tally, ws: &mut [u8], planes: Planes, kernel: usize) -> Tally
    requires { PassReady tally ws.old planes kernel }
    ensures { JoinPassed tally ws.old planes kernel LEAST result ws.new }
{
    let to = planes.to;
    let prefix = planes.spare;
    let width = planes.width;
    let height = planes.height;
    let suffix = prefix + width * height;
    let radius = (kernel - 1) / 2;
    let mut t = tally;
    for y in 0..height {
        let low = reach::low(y, radius) * width;
        let high = reach::high(y, radius, height) * width;
        t = meet_lanes::<LEAST>(t, ws, suffix + low, prefix + high, to + y * width, width);
    }
    t
}

// Slides the extreme along each of `width` lanes of `height` samples, from one plane to another or back to the same.
// The scratch holds the forward extremes in its first half and the backward ones in its second.
pub(crate) fn running_extremum_1d<const LEAST: bool>(
    tally: Tally,
    ws: &mut [u8],
    planes: Planes,
    kernel: usize,
) -> Tally
    requires { LinesReady tally ws.old planes kernel }
    ensures { LinesSwept tally ws.old planes kernel LEAST result ws.new }
{
    let a = forward_pass::<LEAST>(tally, ws, planes, kernel);
    let b = backward_pass::<LEAST>(a, ws, planes, kernel);
    join_pass::<LEAST>(b, ws, planes, kernel)
}

// Copies column x of a plane whose rows are `step` long, as a row of `count` samples.
fn transpose_column(ws: &mut [u8], from: usize, x: usize, step: usize, to: usize, count: usize)
    requires { (from + step * count ≤ length ws.old) × (to + count ≤ length ws.old) × (x < step) ×
        Apart from (step * count) to count }
    ensures { Rowed to count (λ y. lane ws.old from step x y) ws.old ws.new }
{
    for y in 0..count {
        ws[to + y] = ws[from + (y * step + x)];
    }
}

// Transposes a plane of `rows` rows of `columns` samples: its columns become the rows of another plane.
fn transpose(ws: &mut [u8], from: usize, to: usize, rows: usize, columns: usize)
    requires { TransposeReady ws.old from to rows columns }
    ensures { Transposed ws.old from to rows columns ws.new }
{
    for x in 0..columns {
        transpose_column(ws, from, x, columns, to + x * rows, rows);
    }
}

// Sweeps along each row of a strip: transposes its rows to lanes, sweeps these, and transposes them back.
pub(crate) fn sweep_strip<const LEAST: bool>(
    tally: Tally,
    ws: &mut [u8],
    planes: Planes,
    kernel: usize,
) -> Tally
    requires { SweepReady tally ws.old planes kernel }
    ensures { RowsSwept tally ws.old planes kernel LEAST result ws.new }
{
    transpose(ws, planes.from, planes.spare, planes.height, planes.width);
    let t = running_extremum_1d::<LEAST>(tally, ws, planes.transposed(), kernel);
    transpose(ws, planes.spare, planes.to, planes.width, planes.height);
    t
}
