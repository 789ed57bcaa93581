// The status lines of recorded negotiations, each below the name of its file.
#![tactic(auto)]

ghost use Rattle.std.specs.Prelude.{◌≤◌, length, IfOk};

use link::frames::ALWAYS_ENOUGH;
use serial::line::Line;
use status_lines::status::{MAX_LINES, text};
use std::fs::File;
use std::io;
use std::rt::Files;
use streams::read_full;

// What a recording holds, at the start of `bytes`, and how much of it there is.
fn recorded(rt: &impl Files, name: &str, bytes: &mut [u8]) -> io::Result<usize>
    ensures { IfOk result (λ n. n ≤ length bytes.new) }
{
    let mut file = File::open(rt, name)?;
    read_full(&mut file, bytes)
}

fn sample(rt: &(impl Files + Print + Eprint), name: &str) -> io::Result<()> {
    // Every recording is shorter.
    let mut bytes = [0u8; 4096];
    let n = match recorded(rt, name, &mut bytes) {
        Ok(n) => n,
        Err(error) => return eprintln!(rt; "{name}: {error}"),
    };
    println!(rt; "{name}")?;
    let line = Line::<ALWAYS_ENOUGH>::heard(&bytes[..n]);
    let mut out = [0u8; MAX_LINES];
    rt.write_all(text(line.link.status(), &mut out))
}

fn main(rt: HostRuntime) -> io::Result<()> {
    for name in ["open", "pppd", "damaged", "dead"] {
        sample(&rt, name)?;
    }
    Ok(())
}
