// Reads a picture as the program `reading` does, writes the same line, and draws under it the rows of the destination:
// '#' for each pixel that is judged dark, '.' for every other. For an input that is refused it draws nothing.
#![tactic(auto)]

ghost use Rattle.std.specs.Prelude.{◌+◌, ◌*◌, ◌≤◌, ◌<◌, ◌≡◌, length};
ghost use Rattle.answer.specs.Program.{Prints, PrintsStart};
ghost use Rattle.column.specs.Drawing.{program_drawing, drawing_room};
ghost use Rattle.column.specs.Steps.{ink_of, Room, DrawsRows};

use std::io;

// The length of a buffer that holds any line, and 60 rows of 60 marks and a line feed each: 3,788.
const DRAWING: usize = answer::LINE + (pgm::SIDE_LIMIT + 1) * pgm::SIDE_LIMIT;

// Gives the mark of a destination's byte: the settings mark a dark pixel with 0.
fn ink(value: u8) -> u8
    ensures { result ≡ ink_of value }
{
    if value == 0 { b'#' } else { b'.' }
}

// Draws the rows of a picture from `at` on, each ended by a line feed, and answers the place after them.
fn draw_rows(pixels: &[u8], width: usize, height: usize, out: &mut [u8], at: usize) -> usize
    requires { Room pixels.now width height out.old at }
    ensures { DrawsRows pixels.now width height out.old at result out.new }
{
    for y in 0..height {
        let row = at + y * (width + 1);
        for (x, value) in pixels[y * width..(y + 1) * width].iter().enumerate() {
            out[row + x] = ink(*value);
        }
        out[row + width] = b'\n';
    }
    at + height * (width + 1)
}

// Writes the line of an input of any length and the rows of its picture, and answers how many bytes they are.
fn draw(input: &[u8], out: &mut [u8]) -> usize
    requires { drawing_room ≤ length out.old }
    ensures { Prints (program_drawing input.now) out.old result out.new }
{
    let mut dst = [0u8; answer::PIXELS];
    let length = answer::answer_and_mark(input, &mut dst, &mut out[..answer::LINE]).unwrap();
    let Ok(picture) = pgm::parse(input) else {
        return length;
    };
    if picture.width == 0 || picture.height == 0 {
        return length;
    }
    draw_rows(&dst, picture.width, picture.height, out, length)
}

// Draws an input by its first bytes, n of which were read into the buffer: as many as it holds, or the whole input.
fn draw_start(buffer: &[u8; answer::INPUT], n: usize, out: &mut [u8; DRAWING]) -> usize
    ensures { PrintsStart program_drawing buffer.now n out.old result out.new }
{
    draw(answer::read_part(buffer, n), out)
}

// Reads the first bytes of the input, draws them and writes the drawing.
fn main(rt: HostRuntime) -> io::Result<()> {
    let mut input = [0u8; answer::INPUT];
    let mut out = [0u8; DRAWING];
    let n = answer::read_start(&mut rt.stdin(), &mut input)?;
    let length = draw_start(&input, n, &mut out);
    rt.write_all(&out[..length])
}
