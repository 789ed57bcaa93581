// Runs two links against each other and prints how they ended: each of the first 65,536 bytes of standard input is a meeting of the
// same two ends. A 0 makes both ends anew; another byte brings them back to phase Dead, and its bits say what each then offers, and how
// it reads.
#![tactic(auto)]

mod end;
mod meeting;
mod offer;
mod tally;

use crate::meeting::Pair;
use crate::tally::Tally;
use std::io;
use streams::read_full;

// A meeting for each byte.
fn meet_each(src: &[u8]) -> Tally {
    let mut pair = Pair::new(1);
    let mut tally = Tally::new();
    for &c in src {
        pair.meet(c);
        tally.take(&pair, c);
    }
    tally
}

fn main(rt: HostRuntime) -> io::Result<()> {
    let mut input = [0u8; 65536];
    let n = read_full(&mut rt.stdin(), &mut input)?;
    meet_each(&input[..n]).show(&rt)
}
