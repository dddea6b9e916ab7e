// Answers an input with one line: the counts of the reading of the picture that it is, or a refusal. No public call has
// a condition.
#![tactic(auto)]

ghost use Rattle.std.specs.Prelude.{◌≡◌, ◌≤◌, length, IfOk, IfSome};
ghost use Rattle.answer.specs.Answer.{settings, answer_of, AnswersPicture, AnswersInput};
ghost use Rattle.answer.specs.Program.{program_line, AnswersAndMarks, ReadPart, Starts, PrintsStart};
ghost use Rattle.imgproc.specs.Reading.{read_answer};
ghost use Rattle.pgm.specs.Line.{Writes};

use image::{Geometry, Refusal};
use imgproc::ImgProcError;
use imgproc::illumination::BackgroundDivideConfig;
use imgproc::morphology::tally;
use imgproc::reading::{ReadingConfig, ReadingCounts};
use imgproc::threshold::SauvolaConfig;
use pgm::{Counts, Picture};
use std::io;

// The pixels of the largest picture, 60 × 60, which a destination holds.
pub const PIXELS: usize = pgm::SIDE_LIMIT * pgm::SIDE_LIMIT;

// The bytes of the longest header, "P5 60 60 255" and a line feed.
const HEADER: usize = 13;

// How many bytes a program reads of its input, 3,614: one more than the longest picture has, so that a byte too many is
// seen.
pub const INPUT: usize = HEADER + PIXELS + 1;

// The length of a buffer that holds any line.
pub const LINE: usize = pgm::LINE_ROOM;

// The tiles along the longest side, each 16 × 16.
const TILES_ALONG: usize = 4;

// The tiles of the largest picture.
const TILES: usize = TILES_ALONG * TILES_ALONG;

// The byte workspace that a reading of the largest picture asks for: 9wh + 2t bytes, 32,432.
const BYTES: usize = imgproc::reading::PLANES * PIXELS + 2 * TILES;

// The u64 workspace that it asks for: 2(w + 1)(h + 1) + 5t numbers, 7,522.
const U64S: usize = 2 * (pgm::SIDE_LIMIT + 1) * (pgm::SIDE_LIMIT + 1) + 5 * TILES;

// Gives the default settings of the published Rust, and an opening with kernel 3.
fn settings() -> ReadingConfig
    ensures { result ≡ settings }
{
    ReadingConfig {
        division: BackgroundDivideConfig::default(),
        opening_kernel: 3,
        grid: imgproc::grid::TileThresholdConfig::default(),
        sauvola: SauvolaConfig::default(),
    }
}

// Writes the line of a reading's answer.
fn write_read(
    width: usize,
    height: usize,
    read: Result<ReadingCounts, ImgProcError>,
    out: &mut [u8],
) -> Option<usize>
    ensures { Writes (answer_of width height (read_answer read)) out.old result out.new }
{
    match read {
        Ok(read) => {
            let counts = Counts {
                width: width as u64,
                height: height as u64,
                dark: read.dark,
                light: read.light,
                skipped: read.skipped,
                comparisons: tally::comparisons(read.tally),
            };
            counts.line(out)
        }
        Err(error) => pgm::refused_line(error.number(), out),
    }
}

// Reads a picture without padding, and writes the line of its answer. The buffers are parameters of their own, as the
// reading takes them: a struct of them would only be taken apart again. The count buffer, which the line does not
// need, is made here.
fn answer_picture(
    picture: Picture<'_>,
    dst: &mut [u8],
    bytes: &mut [u8],
    u64s: &mut [u64],
    out: &mut [u8],
) -> Option<usize>
    ensures { AnswersPicture picture.entry.width picture.entry.height picture.entry.pixels.now
        (record {
          dst = dst.old;
          bytes = bytes.old;
          u64s = u64s.old;
          out = out.old;
        })
        result
        (record { dst = dst.new; bytes = bytes.new; u64s = u64s.new; out = out.new }) }
{
    let Picture {
        width,
        height,
        pixels,
        ..
    } = picture;
    let geometry = Geometry {
        width,
        height,
        stride: width,
    };
    let config = settings();
    let mut open_tiles = [0u16; TILES_ALONG];
    let read = imgproc::reading::reading(
        pixels,
        geometry,
        dst,
        geometry,
        config,
        bytes,
        u64s,
        &mut open_tiles,
    );
    write_read(width, height, read, out)
}

// Answers an input: writes one line at the start of `out`, and gives its length. A buffer of less than pgm::LINE_ROOM
// bytes is left as it is.
#[tactic(auto, using(crate::proofs::Inputs::parsing))]
pub fn answer(
    input: &[u8],
    dst: &mut [u8],
    bytes: &mut [u8],
    u64s: &mut [u64],
    out: &mut [u8],
) -> Option<usize>
    ensures { AnswersInput input.now
        (record {
          dst = dst.old;
          bytes = bytes.old;
          u64s = u64s.old;
          out = out.old;
        })
        result
        (record { dst = dst.new; bytes = bytes.new; u64s = u64s.new; out = out.new }) }
{
    match pgm::parse(input) {
        Ok(picture) => answer_picture(picture, dst, bytes, u64s, out),
        Err(malformed) => pgm::refused_line(malformed.number(), out),
    }
}

// Answers an input of any length with workspaces of its own, and marks its picture in a destination. A line buffer of
// less than LINE bytes is left as it is.
#[tactic(auto, using(crate::proofs::Whole::whole))]
pub fn answer_and_mark(input: &[u8], dst: &mut [u8; PIXELS], out: &mut [u8]) -> Option<usize>
    ensures { AnswersAndMarks input.now dst.old out.old
        result dst.new out.new }
{
    let mut bytes = [0u8; BYTES];
    let mut u64s = [0u64; U64S];
    answer(input, dst, &mut bytes, &mut u64s, out)
}

// Reads the first bytes of an input, as many as the buffer holds or the whole input, and gives how many they are. Of
// std's calls, read_exact does not tell how many bytes a shorter input has, and read_to_end needs the heap.
pub fn read_start<R: io::Read>(input: &mut R, buffer: &mut [u8; INPUT]) -> io::Result<usize>
    ensures within { IfOk result (λ n. n ≤ length buffer.new) }
    ensures bytes { IfOk result (λ n. IfSome (R.remaining input.old) (Starts buffer.new n)) }
{
    let mut n = 0;
    while n < INPUT {
        let more = input.read(&mut buffer[n..])?;
        if more == 0 {
            break;
        }
        n += more;
    }
    Ok(n)
}

// Gives the part of a buffer that was read: its first n bytes, or all of it where n is more.
// n stays beside the buffer in public calls: they promise what they do for every n, also one above the buffer's length.
pub fn read_part(buffer: &[u8; INPUT], n: usize) -> &[u8]
    ensures { ReadPart buffer.now n result.now }
{
    &buffer[..n.min(INPUT)]
}

// Answers an input by its first bytes, n of which were read into the buffer: as many as it holds, or the whole input.
pub fn answer_start(buffer: &[u8; INPUT], n: usize, line: &mut [u8; LINE]) -> usize
    ensures { PrintsStart program_line buffer.now n line.old result line.new }
{
    let mut dst = [0u8; PIXELS];
    answer_and_mark(read_part(buffer, n), &mut dst, line).unwrap()
}
