// What a record is made of: numbers in the types that a reading has, which may not fit a record.
ghost use Rattle.std.specs.Prelude.{◌≡◌, not};
ghost use Rattle.image.specs.Answers.{answered, answer_to, bare};
ghost use Rattle.imgproc.specs.GridCalls.{bad_side};
ghost use Rattle.records.specs.Refusals.{record_number, numbers, value_conditions};
ghost use Rattle.records.specs.Calls.{entered, made_of};

use crate::RecordError;
use crate::record::Record;
use image::MAX_SIDE;

// A flask, the number of the pass, the sides of a picture, how many of its pixels are dark, light and skipped, and the
// comparisons that the reading made.
#[derive(Clone, Copy, PartialEq, Eq)]
pub struct Entry {
    pub flask: u32,
    pub pass: u16,
    pub width: usize,
    pub height: usize,
    pub dark: u64,
    pub light: u64,
    pub skipped: u64,
    pub comparisons: u64,
}

// Says whether a side is outside 1..MAX_SIDE.
fn bad_side(side: usize) -> bool
    ensures { result ≡ bad_side side }
{
    side == 0 || MAX_SIDE < side
}

impl Entry {
    // Checks the values: each side, and then that the counts add up to the picture's pixels. Their sum has 128 bits, so
    // it does not wrap.
    #[tactic(auto, unfolding(image::specs::Answers::answer_to))]
    pub(crate) fn check(self) -> Result<(), RecordError>
        ensures { answered record_number result
            ≡ answer_to (numbers (value_conditions (entered self))) bare }
    {
        if bad_side(self.width) || bad_side(self.height) {
            return Err(RecordError::BadRecord);
        }
        let sum = u128::from(self.dark) + u128::from(self.light) + u128::from(self.skipped);
        if sum != (self.width * self.height) as u128 {
            return Err(RecordError::BadRecord);
        }
        Ok(())
    }

    // Makes the record of the numbers. Where they are checked, only the comparisons may not fit their field.
    pub fn record(self) -> Result<Record, RecordError>
        ensures { answered record_number result ≡ made_of (entered self) }
    {
        self.check()?;
        let Ok(comparisons) = u32::try_from(self.comparisons) else {
            return Err(RecordError::BadRecord);
        };
        Ok(Record {
            flask: self.flask,
            pass: self.pass,
            width: self.width as u16,
            height: self.height as u16,
            dark: self.dark as u32,
            light: self.light as u32,
            skipped: self.skipped as u32,
            comparisons,
        })
    }
}
