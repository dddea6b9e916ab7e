// Document 01's low and high: the first and the last index within r of i in a line of n; and what lies between them on
// both axes.
ghost use Rattle.std.specs.Prelude.{◌≡◌, ◌+◌, ◌-◌, ◌*◌, ◌≤◌, ◌<◌};
ghost use Rattle.image.specs.Layout.{side_limit};
ghost use Rattle.imgproc.specs.Reach.{low, high};
ghost use Rattle.imgproc.specs.Sauvola.{window};

// low = max(0, i - r)
pub(crate) fn low(i: usize, r: usize) -> usize
    ensures { result ≡ low r i }
{
    i.saturating_sub(r)
}

// high = min(i + r, n - 1). A radius may be any number, so the sum saturates.
pub(crate) fn high(i: usize, r: usize, n: usize) -> usize
    requires { i < n }
    ensures { result ≡ high r n i }
{
    i.saturating_add(r).min(n - 1)
}

// The columns left..=right and the rows top..=bottom, of a picture's pixels or of a grid's tiles. That they lie within
// its sides stands in the contracts, since the sides are not in it.
#[derive(Clone, Copy)]
pub(crate) struct Area {
    pub left: usize,
    pub right: usize,
    pub top: usize,
    pub bottom: usize,
}

impl Area {
    // Finds all that lies within the radius of (x, y) on both axes, of `width` columns and `height` rows. A place stays
    // two numbers everywhere: a pair of them would hold no bound, since the sides are not in it.
    pub(crate) fn around(x: usize, y: usize, radius: usize, width: usize, height: usize) -> Self
        requires { (x < width) × (y < height) }
        ensures { result ≡ window radius width height x y }
    {
        Self {
            left: low(x, radius),
            right: high(x, radius, width),
            top: low(y, radius),
            bottom: high(y, radius, height),
        }
    }

    // Counts its places. Inlined first, so that LLVM shares the ends with the corners of a table.
    #[inline(always)]
    pub(crate) fn count(self) -> u64
        requires { ((self.left ≤ self.right) × (self.right < side_limit))
            × ((self.top ≤ self.bottom) × (self.bottom < side_limit)) }
        ensures { result ≡ (self.right + 1 - self.left) * (self.bottom + 1 - self.top) }
    {
        ((self.right + 1 - self.left) * (self.bottom + 1 - self.top)) as u64
    }
}
