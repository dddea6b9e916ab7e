// Exports the write and the read of a record.
ghost use Rattle.std.specs.Prelude.{◌≡◌};
ghost use Rattle.image.specs.Answers.{answered};
ghost use Rattle.records.specs.Calls.{entered, read_from};
ghost use Rattle.records.specs.Refusals.{record_number};
ghost use Rattle.imgproc_c.specs.Exports.{Tells};
ghost use Rattle.imgproc_c.specs.Records.{record_from, flat_answer, flat_bytes, WritesNumber};

use crate::answers::recorded;
use image::answer_number;
use records::RecordError;
use records::entry::Entry;
use records::record::{RECORD_BYTES, Record};

// Makes the record of an entry, and writes it to the first bytes of a destination, whose length it checks first.
fn written(entry: Entry, destination: &mut [u8]) -> Result<(), RecordError>
    ensures answers { answered record_number result ≡ flat_answer (entered entry) destination.old }
    ensures leaves { destination.new ≡ flat_bytes (entered entry) destination.old }
{
    if destination.len() < RECORD_BYTES {
        return Err(RecordError::NoRecord);
    }
    entry.record()?.write(destination)
}

#[unsafe(no_mangle)]
pub extern "C" fn imgproc_record_write(
    flask: u32,
    pass: u16,
    width: usize,
    height: usize,
    dark: u64,
    light: u64,
    skipped: u64,
    comparisons: u64,
    destination: &mut [u8],
) -> u32
    ensures { WritesNumber
        (record_from flask pass width height dark light skipped comparisons)
        destination.old
        result
        destination.new }
{
    let entry = Entry {
        flask,
        pass,
        width,
        height,
        dark,
        light,
        skipped,
        comparisons,
    };
    answer_number(written(entry, destination))
}

#[unsafe(no_mangle)]
pub extern "C" fn imgproc_record_read(
    source: &[u8],
    flask: &mut u32,
    pass: &mut u16,
    width: &mut usize,
    height: &mut usize,
    dark: &mut u64,
    light: &mut u64,
    skipped: &mut u64,
    comparisons: &mut u64,
) -> u32
    ensures { Tells (read_from source.now)
        (record_from flask.old pass.old width.old height.old dark.old light.old skipped.old comparisons.old)
        result
        (record_from flask.new pass.new width.new height.new dark.new light.new skipped.new comparisons.new) }
{
    recorded(
        Record::read(source),
        flask,
        pass,
        width,
        height,
        dark,
        light,
        skipped,
        comparisons,
    )
}
