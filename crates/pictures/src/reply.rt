// Gives a call's answer as a list has it: the number of its refusal, or 0, and up to eight values.
use image::{Geometry, Refusal};
use imgproc::grid::TileCounts;
use imgproc::morphology::tally::{self, Tally};
use imgproc::reading::ReadingCounts;
use records::record::Record;

// An array, as a list has it. A `Result` would not hold it: call 20 may have a number and a value together.
pub(crate) type Answer = [usize; 9];

// What an accepted call answers, as up to eight values.
pub(crate) trait Values {
    fn values(self) -> [usize; 8];
}

fn one(value: usize) -> [usize; 8] {
    [value, 0, 0, 0, 0, 0, 0, 0]
}

impl Values for () {
    fn values(self) -> [usize; 8] {
        [0; 8]
    }
}

// A list has no values of a layout.
impl Values for Geometry {
    fn values(self) -> [usize; 8] {
        [0; 8]
    }
}

impl Values for u8 {
    fn values(self) -> [usize; 8] {
        one(usize::from(self))
    }
}

impl Values for bool {
    fn values(self) -> [usize; 8] {
        one(usize::from(self))
    }
}

impl Values for Tally {
    fn values(self) -> [usize; 8] {
        one(tally::comparisons(self) as usize)
    }
}

impl Values for TileCounts {
    fn values(self) -> [usize; 8] {
        [self.tiles_x, self.tiles_y, 0, 0, 0, 0, 0, 0]
    }
}

impl Values for ReadingCounts {
    fn values(self) -> [usize; 8] {
        [
            self.dark as usize,
            self.light as usize,
            self.skipped as usize,
            tally::comparisons(self.tally) as usize,
            0,
            0,
            0,
            0,
        ]
    }
}

impl Values for Record {
    fn values(self) -> [usize; 8] {
        [
            self.flask as usize,
            usize::from(self.pass),
            usize::from(self.width),
            usize::from(self.height),
            self.dark as usize,
            self.light as usize,
            self.skipped as usize,
            self.comparisons as usize,
        ]
    }
}

// Gives a number and one value as a list has them.
pub(crate) fn with_value(number: usize, value: usize) -> Answer {
    [number, value, 0, 0, 0, 0, 0, 0, 0]
}

// Gives an answer as a list has it.
pub(crate) fn told<T: Values, E: Refusal>(answer: Result<T, E>) -> Answer {
    match answer {
        Ok(found) => {
            let [a, b, c, d, e, f, g, h] = found.values();
            [0, a, b, c, d, e, f, g, h]
        }
        Err(error) => with_value(error.number() as usize, 0),
    }
}
