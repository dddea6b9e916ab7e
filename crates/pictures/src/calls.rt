// Makes the public calls, each by the number that a list gives it.
use crate::buffers::Lent;
use crate::numbers::narrow;
use crate::reply::{Answer, told, with_value};
use crate::settings;
use crate::settings::Numbers;
use image::Geometry;
use imgproc::grid::TileThresholdGrid;
use imgproc::reading::ReadingCounts;
use imgproc::{ImgProcError, illumination, morphology, reading, threshold};
use records::RecordError;
use records::record::Record;

// Copies as many bytes as both slices have, and returns their number.
fn copy(from: &[u8], to: &mut [u8]) -> usize {
    let length = from.len().min(to.len());
    to[..length].copy_from_slice(&from[..length]);
    length
}

// Copies the row that is handed out to the other slice.
fn row(g: Geometry, y: usize, from: &[u8], to: &mut [u8]) -> Answer {
    let number = image::answer_number(image::check_row(from.len(), g, y));
    let copied = copy(image::row(from, g, y), to);
    with_value(number as usize, copied)
}

// Writes the other slice through the row that is handed out.
fn row_mut(g: Geometry, y: usize, from: &[u8], to: &mut [u8]) -> Answer {
    let number = image::answer_number(image::check_row(to.len(), g, y));
    let copied = copy(from, image::row_mut(to, g, y));
    with_value(number as usize, copied)
}

// Writes the record of a reading to a slice. The flask, the pass and the sides stand behind the reading's settings.
fn keep(f: Numbers, counts: ReadingCounts, to: &mut [u8]) -> Result<(), RecordError> {
    let record = Record::of_reading(narrow(f[24]), narrow(f[25]), settings::sides(f), counts)?;
    record.write(to)
}

// Keeps a reading if it is accepted, and adds the number that keeping it answers to the reading's four.
fn kept(read: Result<ReadingCounts, ImgProcError>, f: Numbers, to: &mut [u8]) -> Answer {
    let mut answer = told(read);
    if let Ok(counts) = read {
        answer[5] = image::answer_number(keep(f, counts, to)) as usize;
    }
    answer
}

// Makes the call of the first number. These numbers stand in the lists, and here alone: an enum of the calls would only
// repeat the names of the functions. Call 20, the program's answer, returns no refusal's number. Its list gives one
// itself, and any but 0 says that all but the line stays as it was. A number with no call is refused by 999, which no
// call answers.
pub(crate) fn call(f: Numbers, lent: &mut Lent) -> Answer {
    let Lent {
        from,
        to,
        other,
        bytes,
        u64s,
        u16s,
        u32s,
    } = lent;
    let g = settings::source(f);
    let h = settings::destination(f);
    let s = settings::division(f);
    let grid = settings::built(f);
    let [which, line, _, _, a, b, c, k, y, ..] = f;
    match which {
        0 => told(image::validate_layout(a, g)),
        1 => told(image::check_pixel(a, g, b, c)),
        2 => told(image::check_row(a, g, b)),
        3 => told(image::get(from, g, a, b)),
        4 => told(image::set(to, g, a, b, narrow(c))),
        5 => row(g, a, from, to),
        6 => row_mut(g, a, from, to),
        7 => told(image::pack(from, g, to, a)),
        8 => told(image::unpack(from, a, to, g)),
        9 => told(morphology::grayscale_erode_into(from, g, to, h, k, bytes)),
        10 => told(morphology::grayscale_dilate_into(from, g, to, h, k, bytes)),
        11 => told(morphology::grayscale_open_into(from, g, to, h, k, bytes)),
        12 => told(morphology::grayscale_close_into(from, g, to, h, k, bytes)),
        13 => told(illumination::background_divide_into(from, g, to, h, s, bytes)),
        14 => told(threshold::sauvola_into(from, g, to, h, settings::sauvola(f), u64s)),
        15 => told(TileThresholdGrid::build(from, g, settings::grid(f), u64s, to, other, u16s)),
        16 => told(grid.threshold_at(from, k, y)),
        17 => told(grid.is_skip(from, k, y)),
        18 => told(grid.row_all_skip(u16s, y)),
        19 => told(reading::reading(from, g, to, h, settings::reading(f), bytes, u64s, u16s)),
        // A line that does not fit has the length 0 in a list.
        20 => with_value(
            line,
            answer::answer(from, to, bytes, u64s, other).unwrap_or(0),
        ),
        21 => told(grid.blank(to, u16s, k, y)),
        22 => told(grid.clear(to, u16s, k, y)),
        23 => told(threshold::sauvola_narrow_into(from, g, to, h, settings::sauvola(f), u32s)),
        24 => told(settings::record(f).write(to)),
        25 => told(Record::read(from)),
        26 => told(settings::entry(f).record()),
        27 => kept(
            reading::reading(from, g, to, h, settings::reading(f), bytes, u64s, u16s),
            f,
            other,
        ),
        _ => with_value(999, 0),
    }
}
