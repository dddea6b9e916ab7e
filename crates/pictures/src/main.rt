// Replays the lists that its arguments name against the libraries, and writes a line for each: its name, how many cases
// it has, how many came out wrong, and the line of the first of those.
#![tactic(auto)]

mod buffers;
mod calls;
mod case;
mod numbers;
mod replay;
mod reply;
mod settings;

use replay::Score;
use std::rt::Files;
use std::{env, fs, io};

// Every list is shorter than this.
const LONGEST: usize = 131072;

fn run(rt: &(impl Files + Print + AllocGlobal), name: &str) -> io::Result<()> {
    let text = fs::read(rt, name)?;
    let score = if text.len() < LONGEST {
        replay::replay(rt.alloc(), &text)?
    } else {
        Score::UNREAD
    };
    println!(rt; "{name} {score}")
}

fn main(rt: HostRuntime) -> io::Result<()> {
    for name in env::args(&rt)?.skip(1) {
        run(&rt, name.as_str())?;
    }
    Ok(())
}
