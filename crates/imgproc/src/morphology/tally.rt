// One tally of comparisons. Its number is private: only `extreme` raises one, by 1 with the extreme that it gives, and
// only `start` makes one. Callers outside the crate have `Tally`, which answers carry, and `comparisons`, which reads
// its number.
ghost use Rattle.std.specs.Prelude.{◌≡◌};
ghost use Rattle.imgproc.specs.Tallies.{Raised, HasRoom, Stands};
ghost use Rattle.imgproc.specs.Compared.{Compares, extreme};

// How many times two samples were compared.
#[derive(Clone, Copy)]
pub struct Tally {
    comparisons: u64,
}

// The extreme of two samples, and the tally with that comparison in it. Nobody else can make one or exchange its parts.
#[derive(Clone, Copy)]
pub(crate) struct Met {
    tally: Tally,
    value: u8,
}

impl Tally {
    // Takes the lesser of two samples where LEAST is true, else the greater, and counts the comparison.
    pub(crate) fn extreme<const LEAST: bool>(self, a: u8, b: u8) -> Met
        requires { HasRoom self 1 }
        ensures { Compares (extreme LEAST a b) self result }
    {
        let (lesser, greater) = if a < b { (a, b) } else { (b, a) };
        Met {
            tally: Tally {
                comparisons: self.comparisons + 1,
            },
            value: if LEAST { lesser } else { greater },
        }
    }
}

impl Met {
    // Takes the tally out, with that comparison in it.
    pub(crate) fn counted(self) -> Tally
        ensures { Raised self.tally 0 result }
    {
        self.tally
    }

    // Takes the extreme out.
    pub(crate) fn chosen(self) -> u8
        ensures { result ≡ self.value }
    {
        self.value
    }
}

// Starts a tally, of no comparisons.
pub(crate) fn start() -> Tally
    ensures { Stands result 0 }
{
    Tally { comparisons: 0 }
}

// Reads the number of a tally.
pub fn comparisons(tally: Tally) -> u64
    ensures { result ≡ tally.comparisons }
{
    tally.comparisons
}
