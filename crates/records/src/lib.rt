// Records: a reading kept in 28 bytes, with the flask that was read and the number of the pass. This file says why a
// call is refused: the kinds, and their numbers.
#![tactic(auto)]

pub mod entry;
pub mod record;

ghost use Rattle.std.specs.Prelude.{◌≡◌};
ghost use Rattle.records.specs.Refusals.{record_number};

use image::Refusal;

// Why a record is not written, read or made. NoRecord: there are fewer bytes than a record has, or they do not begin
// with its mark. BadRecord: a side is outside 1..4,096, the counts do not add up to the picture's pixels, or a number
// does not fit its field.
#[derive(Clone, Copy, PartialEq, Eq)]
pub enum RecordError {
    NoRecord,
    BadRecord,
}

impl Refusal for RecordError {
    ghost number_of = { record_number };

    fn number(self) -> u32 {
        match self {
            RecordError::NoRecord => 13,
            RecordError::BadRecord => 14,
        }
    }
}
