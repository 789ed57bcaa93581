// Sends packets through an outbox, or over the link alone, so that `bench/run` can time it. The first line of standard input says what a
// round does (`link`, `accept` or `both`), how long a packet is, how many packets are held already and how many rounds there are; behind
// it stands what a peer sends to open the link.
#![tactic(auto)]

mod case;
mod rounds;

use crate::case::{Case, What};
use crate::rounds::{Sum, accept_rounds, both_rounds, fill, link_rounds, plain};
use std::io;
use streams::read_full;

fn measure(case: Case, peer: &[u8], pkt: &mut [u8], buf: &mut [u8]) -> Sum {
    plain(pkt);
    match case.what {
        What::Link => link_rounds(peer, pkt, case.rounds),
        What::Accept => accept_rounds(fill(case.held, pkt, buf), pkt, buf, case.rounds),
        What::Both => both_rounds(fill(case.held, pkt, buf), peer, pkt, buf, case.rounds),
    }
}

fn main(rt: HostRuntime) -> io::Result<()> {
    let mut text = [0u8; 4096];
    let n = read_full(&mut rt.stdin(), &mut text)?;
    let (case, peer) = Case::read(&text[..n]);
    let mut room = [0u8; 1500];
    let mut buf = [0u8; 65536];
    let sum = measure(case, peer, case.packet(&mut room), &mut buf);
    println!(rt; "{} {}", sum.counts, sum.bytes)
}
