// A record, and its 28 bytes: the mark, and then its numbers, each with the highest byte first.
ghost use Rattle.std.specs.Prelude.{◌≡◌, ◌+◌, ◌≤◌, length};
ghost use Rattle.std.specs.Int.{w16, w32, from_be_bytes};
ghost use Rattle.image.specs.Answers.{answered};
ghost use Rattle.image.specs.Plane.{part};
ghost use Rattle.imgproc.specs.Reading.{numbers_of};
ghost use Rattle.records.specs.Format.{encoded, decoded, record_bytes};
ghost use Rattle.records.specs.Refusals.{record_number, marked};
ghost use Rattle.records.specs.Calls.{Writes, read_from, entered, kept_of, made_of};

use crate::RecordError;
use crate::entry::Entry;
use image::Geometry;
use imgproc::morphology::tally;
use imgproc::reading::ReadingCounts;

// How many bytes a record has.
pub const RECORD_BYTES: usize = 28;

// The mark, the two bytes that a record begins with: the letter "R" and the digit "1".
const MARK_LETTER: u8 = 0x52;

const MARK_DIGIT: u8 = 0x31;

// A reading that is kept, by numbers of the widths that its bytes have. (Entry says what each of them is.)
#[derive(Clone, Copy, PartialEq, Eq)]
pub struct Record {
    pub flask: u32,
    pub pass: u16,
    pub width: u16,
    pub height: u16,
    pub dark: u32,
    pub light: u32,
    pub skipped: u32,
    pub comparisons: u32,
}

// Says whether bytes begin with the mark.
fn marked(bytes: &[u8]) -> bool
    requires { record_bytes ≤ length bytes.now }
    ensures { result ≡ marked bytes.now }
{
    bytes[0] == MARK_LETTER && bytes[1] == MARK_DIGIT
}

// Reads the 32 bits at a place, the highest byte first.
fn u32_at(bytes: &[u8], at: usize) -> u32
    requires { at + 4 ≤ length bytes.now }
    ensures { result ≡ from_be_bytes w32 (part at 4 bytes.now) }
{
    u32::from_be_bytes([bytes[at], bytes[at + 1], bytes[at + 2], bytes[at + 3]])
}

// Reads the 16 bits at a place.
fn u16_at(bytes: &[u8], at: usize) -> u16
    requires { at + 2 ≤ length bytes.now }
    ensures { result ≡ from_be_bytes w16 (part at 2 bytes.now) }
{
    u16::from_be_bytes([bytes[at], bytes[at + 1]])
}

impl Record {
    // Makes the record of a picture's reading: its sides, and its counts as the reading gives them.
    pub fn of_reading(
        flask: u32,
        pass: u16,
        geometry: Geometry,
        counts: ReadingCounts,
    ) -> Result<Record, RecordError>
        ensures { answered record_number result
            ≡ made_of (kept_of flask pass geometry (numbers_of counts)) }
    {
        let entry = Entry {
            flask,
            pass,
            width: geometry.width,
            height: geometry.height,
            dark: counts.dark,
            light: counts.light,
            skipped: counts.skipped,
            comparisons: tally::comparisons(counts.tally),
        };
        entry.record()
    }

    // Gives the numbers in the types that a reading has.
    pub fn entry(self) -> Entry
        ensures { entered result ≡ self }
    {
        Entry {
            flask: self.flask,
            pass: self.pass,
            width: usize::from(self.width),
            height: usize::from(self.height),
            dark: u64::from(self.dark),
            light: u64::from(self.light),
            skipped: u64::from(self.skipped),
            comparisons: u64::from(self.comparisons),
        }
    }

    // Gives the bytes.
    fn encode(self) -> [u8; RECORD_BYTES]
        ensures { result ≡ encoded self }
    {
        let mut bytes = [0; RECORD_BYTES];
        bytes[0] = MARK_LETTER;
        bytes[1] = MARK_DIGIT;
        bytes[2..6].copy_from_slice(&self.flask.to_be_bytes());
        bytes[6..8].copy_from_slice(&self.pass.to_be_bytes());
        bytes[8..10].copy_from_slice(&self.width.to_be_bytes());
        bytes[10..12].copy_from_slice(&self.height.to_be_bytes());
        bytes[12..16].copy_from_slice(&self.dark.to_be_bytes());
        bytes[16..20].copy_from_slice(&self.light.to_be_bytes());
        bytes[20..24].copy_from_slice(&self.skipped.to_be_bytes());
        bytes[24..28].copy_from_slice(&self.comparisons.to_be_bytes());
        bytes
    }

    // Gives the record whose numbers stand after the mark.
    fn decode(bytes: &[u8]) -> Record
        requires { record_bytes ≤ length bytes.now }
        ensures { result ≡ decoded bytes.now }
    {
        Record {
            flask: u32_at(bytes, 2),
            pass: u16_at(bytes, 6),
            width: u16_at(bytes, 8),
            height: u16_at(bytes, 10),
            dark: u32_at(bytes, 12),
            light: u32_at(bytes, 16),
            skipped: u32_at(bytes, 20),
            comparisons: u32_at(bytes, 24),
        }
    }

    // Writes the record to the first bytes of a destination, and changes no byte after them.
    pub fn write(self, destination: &mut [u8]) -> Result<(), RecordError>
        ensures { Writes self destination.old (answered record_number result) destination.new }
    {
        if destination.len() < RECORD_BYTES {
            return Err(RecordError::NoRecord);
        }
        self.entry().check()?;
        destination[0..RECORD_BYTES].copy_from_slice(&self.encode());
        Ok(())
    }

    // Reads the record in the first bytes of a slice.
    pub fn read(source: &[u8]) -> Result<Record, RecordError>
        ensures { answered record_number result ≡ read_from source.now }
    {
        if source.len() < RECORD_BYTES {
            return Err(RecordError::NoRecord);
        }
        if !marked(source) {
            return Err(RecordError::NoRecord);
        }
        let record = Record::decode(source);
        record.entry().check()?;
        Ok(record)
    }
}
