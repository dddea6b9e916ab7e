// Reads a picture from standard input, "P5 w h 255", a line feed and w × h bytes, and writes one line: width, height,
// dark, light, skipped and comparisons, or the number of a refusal.
#![tactic(auto)]

use std::io;

// Reads the first bytes of the input, answers them and writes the line.
fn main(rt: HostRuntime) -> io::Result<()> {
    let mut input = [0u8; answer::INPUT];
    let mut line = [0u8; answer::LINE];
    let n = answer::read_start(&mut rt.stdin(), &mut input)?;
    let length = answer::answer_start(&input, n, &mut line);
    rt.write_all(&line[..length])
}
