// Reads received serial bytes from standard input and prints what they make of a fresh link: the six status lines.
#![tactic(auto)]

use link::frames::ALWAYS_ENOUGH;
use serial::line::Line;
use status_lines::status::{MAX_LINES, text};
use std::io::{self, Read};
use streams::read_full;

// A proved loop has to end, and nothing says that the input does: no run uses so many turns up.
fn hear_all<R: Read>(input: &mut R, line: &mut Line<ALWAYS_ENOUGH>) -> io::Result<()> {
    let mut part = [0u8; 4096];
    for _ in 0..u64::MAX {
        let n = read_full(input, &mut part)?;
        if n == 0 {
            break;
        }
        line.hear(&part[..n]);
    }
    Ok(())
}

fn main(rt: HostRuntime) -> io::Result<()> {
    let mut line = Line::start();
    hear_all(&mut rt.stdin(), &mut line)?;
    let mut out = [0u8; MAX_LINES];
    rt.write_all(text(line.link.status(), &mut out))
}
