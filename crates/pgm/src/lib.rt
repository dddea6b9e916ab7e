// The input and the answer of a program on grey pictures, as bytes. A picture comes as "P5 w h 255", a line feed and
// w × h bytes, and any other form is refused; an answer is one line of decimal text. No public call has a condition.
#![tactic(auto)]

ghost use Rattle.std.specs.Prelude.{◌+◌, ◌≤◌, ◌≡◌, [], ◌∷◌, ◌++◌, length, None, MatchOption, option_map};
ghost use Rattle.pgm.specs.Decimal.{decimal};
ghost use Rattle.pgm.specs.Form.{values, parsed_answer, parsed_number, Answers};
ghost use Rattle.pgm.specs.Parse.{parsed_from};
ghost use Rattle.pgm.specs.Line.{line, refused_line, Writes};
ghost use Rattle.pgm.specs.Steps.{NoSide, Sided, Puts};

mod picture;

use image::Refusal;
pub use picture::{Malformed, Picture};

impl Refusal for Malformed {
    ghost number_of = { λ _. parsed_number None };

    fn number(self) -> u32 {
        11
    }
}

// The largest side that is accepted.
pub const SIDE_LIMIT: usize = 60;

// The length of a buffer that holds any line.
pub const LINE_ROOM: usize = 128;

// Reads the side that a text begins with and the space that ends it, and hands out what follows. One or two digits are
// enough for the limit.
fn read_side(text: &[u8]) -> Option<(usize, &[u8])>
    ensures { MatchOption result (NoSide text.now) (λ p. Sided text.now p.0 p.1.now) }
{
    match text {
        [ones @ b'0'..=b'9', b' ', rest @ ..] => Some((usize::from(*ones - b'0'), rest)),
        [tens @ b'1'..=b'9', ones @ b'0'..=b'9', b' ', rest @ ..] => {
            let side = usize::from(*tens - b'0') * 10 + usize::from(*ones - b'0');
            if side <= SIDE_LIMIT {
                Some((side, rest))
            } else {
                None
            }
        }
        _ => None,
    }
}

// Reads the picture that an input is.
fn read_picture(input: &[u8]) -> Option<Picture<'_>>
    ensures { Answers input.now (option_map values result) }
{
    let rest = input.strip_prefix(b"P5 ")?;
    let (width, rest) = read_side(rest)?;
    let (height, rest) = read_side(rest)?;
    let pixels = rest.strip_prefix(b"255\n")?;
    if pixels.len() != width * height {
        return None;
    }
    Some(Picture {
        width,
        height,
        start: input.len() - pixels.len(),
        pixels,
    })
}

// Parses an input: gives the picture that it is, or tells that it has another form.
#[tactic(auto, using(crate::specs::ParseLaws::parsed_from_lem))]
pub fn parse(input: &[u8]) -> Result<Picture<'_>, Malformed>
    ensures { parsed_answer result ≡ parsed_from input.now }
{
    read_picture(input).ok_or(Malformed)
}

// The numbers of a reading's line.
#[derive(Clone, Copy)]
pub struct Counts {
    pub width: u64,
    pub height: u64,
    pub dark: u64,
    pub light: u64,
    pub skipped: u64,
    pub comparisons: u64,
}

impl Counts {
    // Writes the line of the counts, and answers its length. A buffer of less than LINE_ROOM bytes is left as it is.
    pub fn line(self, out: &mut [u8]) -> Option<usize>
        ensures { Writes (line (self.width ∷ self.height ∷ self.dark ∷ self.light ∷ self.skipped ∷ self.comparisons ∷ []))
            out.old result out.new }
    {
        if out.len() < LINE_ROOM {
            return None;
        }
        let at = put_field(out, 0, self.width, b' ');
        let at = put_field(out, at, self.height, b' ');
        let at = put_field(out, at, self.dark, b' ');
        let at = put_field(out, at, self.light, b' ');
        let at = put_field(out, at, self.skipped, b' ');
        Some(put_field(out, at, self.comparisons, b'\n'))
    }
}

// Writes the line of a refusal, and answers its length. A buffer of less than LINE_ROOM bytes is left as it is.
#[tactic(auto, using(crate::proofs::Writing::writing))]
pub fn refused_line(number: u32, out: &mut [u8]) -> Option<usize>
    ensures { Writes (refused_line number) out.old result out.new }
{
    if out.len() < LINE_ROOM {
        return None;
    }
    let at = put_text(out, 0, b"refused ");
    Some(put_field(out, at, u64::from(number), b'\n'))
}

// Writes a text at a place, and answers the place after it.
fn put_text(out: &mut [u8], at: usize, text: &[u8]) -> usize
    requires { at + length text.now ≤ length out.old }
    ensures { Puts text.now at out.old result out.new }
{
    out[at..at + text.len()].copy_from_slice(text);
    at + text.len()
}

// Writes the decimal text of a number at a place, and answers the place after it. (std's `write!` promises its text only
// where it answers Ok, and nothing promises that it does. The kit's `itoa` would be one more library that is trusted.)
fn put_number(out: &mut [u8], at: usize, number: u64) -> usize
    requires { at + length (decimal number) ≤ length out.old }
    ensures { Puts (decimal number) at out.old result out.new }
{
    if number < 10 {
        out[at] = b'0' + number as u8;
        return at + 1;
    }
    let last = put_number(out, at, number / 10);
    out[last] = b'0' + (number % 10) as u8;
    last + 1
}

// Writes a number and the byte that follows it at a place, and answers the place after them. A number has at most 20
// digits.
#[tactic(auto, using(crate::proofs::Writing::writing))]
fn put_field(out: &mut [u8], at: usize, number: u64, end: u8) -> usize
    requires { at + 21 ≤ length out.old }
    ensures puts { Puts (decimal number ++ (end ∷ [])) at out.old result out.new }
    ensures near { result ≤ at + 21 }
{
    let next = put_number(out, at, number);
    out[next] = end;
    next + 1
}
