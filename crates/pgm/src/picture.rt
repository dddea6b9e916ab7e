// What an input is parsed as: a picture, or an error that tells that it is none.
ghost use Rattle.std.specs.Prelude.{◌*◌, ◌≡◌, length};

// A picture: its sides, where its pixels start in the input, and the pixels row by row without padding.
#[derive(Clone, Copy)]
pub struct Picture<'a> {
    pub width: usize,
    pub height: usize,
    pub start: usize,
    pub pixels: &'a [u8],
    ghost counted: { length pixels.now ≡ width * height },
}

// An input of another form.
#[derive(Clone, Copy)]
pub struct Malformed;
