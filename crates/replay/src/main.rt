// Answers lines from standard input, each as soon as it has arrived: the calls of oracle/README.md, over the proved library.
#![tactic(auto)]

mod bench;
mod buffer;
mod call;
mod dump;
mod line;
mod pppos;
mod reader;
mod show;
mod waiting;
mod words;
mod writer;

use crate::bench::Bench;
use crate::call::MAX_BYTES;
use crate::line::Lines;
use crate::show::Answer;
use std::io::{self, Read};

// A proved loop has to end, and nothing says that the input does: no run uses so many turns up.
fn serve<R: Read>(rt: &impl Print, input: &mut R) -> io::Result<()> {
    let mut bench = Bench::new();
    let mut lines = Lines::new();
    let mut scratch = [0u8; MAX_BYTES];
    let mut out = Answer::new();
    for _ in 0..u64::MAX {
        if !lines.advance(input)? {
            return Ok(());
        }
        out.clear();
        // No answer is as long as the room for one.
        let _ = bench.answer_line(lines.line(), &mut scratch, &mut out);
        rt.write_all(out.as_bytes())?;
    }
    Ok(())
}

fn main(rt: HostRuntime) -> io::Result<()> {
    serve(&rt, &mut rt.stdin())
}
