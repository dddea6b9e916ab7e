// Replays the cases of a list, and counts those that come out wrong. A malformed line is a wrong case.
ghost use Rattle.std.specs.Prelude.{◌≡◌, ◌+◌, ◌<◌, ◌≤◌};

use crate::buffers::Lent;
use crate::case;
use std::alloc::{AllocError, Global};
use std::fmt;

// The score of a list: its cases, how many of them were wrong, and the line of the first of those.
#[derive(Clone, Copy, Default)]
pub(crate) struct Score {
    cases: usize,
    wrong: usize,
    first: Option<usize>,
}

impl Score {
    // The score of a list that is too long to be read: wrong at line 0, which no list has. This line is printed, so it
    // is a line and not None.
    pub(crate) const UNREAD: Score = Score {
        cases: 0,
        wrong: 1,
        first: Some(0),
    };

    // Counts the case of a line.
    fn count(&mut self, line: usize, right: bool)
        requires cases { self.old.cases < line }
        requires wrong { self.old.wrong ≤ self.old.cases }
        ensures cases { self.new.cases ≡ self.old.cases + 1 }
        ensures wrong { self.new.wrong ≤ self.new.cases }
    {
        self.cases += 1;
        if !right {
            self.wrong += 1;
            self.first = self.first.or(Some(line));
        }
    }
}

impl fmt::Display for Score {
    fn fmt<W: fmt::Write>(&self, f: &mut fmt::Formatter<W>) -> fmt::Result {
        let Score {
            cases,
            wrong,
            first,
        } = *self;
        write!(f, "cases {cases} wrong {wrong}")?;
        match first {
            Some(line) => write!(f, " first at line {line}"),
            None => Ok(()),
        }
    }
}

// Replays a list. The noise of a case has seven seeds, and the first is eight above that of the case before it.
pub(crate) fn replay(alloc: Global, text: &[u8]) -> Result<Score, AllocError> {
    let mut score = Score::default();
    let mut lent = Lent::new(alloc);
    let mut seed = 0u32;
    for (index, line) in text.split(|byte| *byte == b'\n').enumerate() {
        if let [] | [b'#', ..] = line {
            continue;
        }
        seed = seed.wrapping_add(8);
        score.count(index + 1, case::holds(alloc, line, seed, &mut lent)?);
    }
    Ok(score)
}
