// Takes answers apart: each function returns the number of the answer, and stores its values in lent numbers. A refusal
// leaves these as they were.
ghost use Rattle.image.specs.Answers.{answered};
ghost use Rattle.imgproc.specs.MorphologyCalls.{compared_answer};
ghost use Rattle.imgproc.specs.Refusals.{error_number};
ghost use Rattle.imgproc.specs.Reading.{read_answer};
ghost use Rattle.records.specs.Refusals.{record_number};
ghost use Rattle.imgproc_c.specs.Exports.{Tells, as_byte};
ghost use Rattle.imgproc_c.specs.Records.{record_from};

use image::Refusal;
use imgproc::ImgProcError;
use imgproc::grid::TileCounts;
use imgproc::morphology::tally::{self, Tally};
use imgproc::reading::ReadingCounts;
use records::RecordError;
use records::record::Record;

// Stores the value in the lent number.
pub(crate) fn told<T: Copy, E: Refusal>(answer: Result<T, E>, value: &mut T) -> u32
    ensures { Tells (answered E.number_of answer) value.old result value.new }
{
    match answer {
        Ok(found) => {
            *value = found;
            0
        }
        Err(error) => error.number(),
    }
}

// Stores 1 in the lent number for a yes, and else 0.
pub(crate) fn told_byte(answer: Result<bool, ImgProcError>, value: &mut u8) -> u32
    ensures { Tells (as_byte (answered error_number answer)) value.old result value.new }
{
    told(answer.map(u8::from), value)
}

// Stores the count in the lent number. The tally is read where the answer is taken apart, as tools/tally asks.
pub(crate) fn counted(answer: Result<Tally, ImgProcError>, comparisons: &mut u64) -> u32
    ensures { Tells (compared_answer answer) comparisons.old result comparisons.new }
{
    match answer {
        Ok(made) => {
            *comparisons = tally::comparisons(made);
            0
        }
        Err(refusal) => refusal.number(),
    }
}

// Stores the tile counts in the lent numbers. C lends a number for each, so `told` can't store them at once.
pub(crate) fn built(
    answer: Result<TileCounts, ImgProcError>,
    tiles_x: &mut usize,
    tiles_y: &mut usize,
) -> u32
    ensures { Tells (answered error_number answer)
        (record { tiles_x = tiles_x.old; tiles_y = tiles_y.old })
        result
        (record { tiles_x = tiles_x.new; tiles_y = tiles_y.new }) }
{
    match answer {
        Ok(counts) => {
            *tiles_x = counts.tiles_x;
            *tiles_y = counts.tiles_y;
            0
        }
        Err(error) => error.number(),
    }
}

// Stores the four counts in the lent numbers, of which C lends four.
pub(crate) fn read(
    answer: Result<ReadingCounts, ImgProcError>,
    dark: &mut u64,
    light: &mut u64,
    skipped: &mut u64,
    comparisons: &mut u64,
) -> u32
    ensures { Tells (read_answer answer)
        (record {
          dark = dark.old;
          light = light.old;
          skipped = skipped.old;
          comparisons = comparisons.old;
        })
        result
        (record {
          dark = dark.new;
          light = light.new;
          skipped = skipped.new;
          comparisons = comparisons.new;
        }) }
{
    match answer {
        Ok(counts) => {
            *dark = counts.dark;
            *light = counts.light;
            *skipped = counts.skipped;
            *comparisons = tally::comparisons(counts.tally);
            0
        }
        Err(error) => error.number(),
    }
}

// Stores the eight numbers of a record in the lent numbers, each of its own.
pub(crate) fn recorded(
    answer: Result<Record, RecordError>,
    flask: &mut u32,
    pass: &mut u16,
    width: &mut usize,
    height: &mut usize,
    dark: &mut u64,
    light: &mut u64,
    skipped: &mut u64,
    comparisons: &mut u64,
) -> u32
    ensures { Tells (answered record_number answer)
        (record_from flask.old pass.old width.old height.old dark.old light.old skipped.old comparisons.old)
        result
        (record_from flask.new pass.new width.new height.new dark.new light.new skipped.new comparisons.new) }
{
    match answer {
        Ok(record) => {
            let entry = record.entry();
            *flask = entry.flask;
            *pass = entry.pass;
            *width = entry.width;
            *height = entry.height;
            *dark = entry.dark;
            *light = entry.light;
            *skipped = entry.skipped;
            *comparisons = entry.comparisons;
            0
        }
        Err(error) => error.number(),
    }
}
