// Each round has a packet of its own, and what comes out is added up, so that the compiler leaves no round out and does none once for all.
use link::pppos::PPPoS;
use outbox::outbox::{ALWAYS_ENOUGH, Outbox, Sent};
use serial::line::Line;

// Of frames the lengths and the last check bytes; of packets that are accepted how many are held, and the first byte of the newest.
#[derive(Clone, Copy, Default)]
pub(crate) struct Sum {
    pub(crate) counts: u64,
    pub(crate) bytes: u64,
}

impl Sum {
    // A count, and the byte at an index.
    fn add(&mut self, count: usize, s: &[u8], at: usize) {
        self.counts = self.counts.wrapping_add(count as u64);
        self.bytes = self
            .bytes
            .wrapping_add(s.get(at).map_or(0, |&b| u64::from(b)));
    }
}

// A byte that needs no escape under any map.
fn letter(i: usize) -> u8 {
    64 + (i % 32) as u8
}

pub(crate) fn plain(pkt: &mut [u8]) {
    for (i, b) in pkt.iter_mut().enumerate() {
        *b = letter(i);
    }
}

// The packet with the number `i`.
fn number(pkt: &mut [u8], i: usize) {
    if let Some(first) = pkt.first_mut() {
        *first = letter(i);
    }
}

// Three loops and no closure: the loop is what is timed.

// `send` of the link that the peer's bytes open: the compiler knows nothing of its state or of its map.
pub(crate) fn link_rounds(peer: &[u8], pkt: &mut [u8], rounds: usize) -> Sum {
    let mut line = Line::<ALWAYS_ENOUGH>::heard(peer);
    let mut sum = Sum::default();
    for i in 0..rounds {
        number(pkt, i);
        let n = line.link.send(pkt, &mut line.tx).unwrap_or(0);
        sum.add(n, &line.tx, n.saturating_sub(2));
    }
    sum
}

// An outbox that holds so many packets.
pub(crate) fn fill(held: usize, pkt: &mut [u8], buf: &mut [u8]) -> Outbox {
    let mut outbox = Outbox::new(buf);
    for i in 0..held {
        number(pkt, i);
        outbox = outbox.accept(pkt, buf).outbox;
    }
    outbox
}

// Where the newest packet begins, if it has `n` bytes and the ring has not come round.
fn newest(outbox: Outbox, n: usize) -> usize {
    outbox
        .size()
        .saturating_sub(outbox.free())
        .saturating_sub(n)
}

// `accept` by the outbox and by the one with a packet more, in turn: of one alone the compiler would do the tests once for all.
pub(crate) fn accept_rounds(outbox: Outbox, pkt: &mut [u8], buf: &mut [u8], rounds: usize) -> Sum {
    let fuller = outbox.accept(pkt, buf).outbox;
    let mut sum = Sum::default();
    for i in 0..rounds {
        number(pkt, i);
        let from = if i % 2 == 0 { fuller } else { outbox };
        let next = from.accept(pkt, buf).outbox;
        sum.add(next.held(), buf, newest(next, pkt.len()));
    }
    sum
}

fn turn(outbox: Outbox, link: PPPoS, pkt: &[u8], buf: &mut [u8], tx: &mut [u8]) -> Sent {
    outbox.accept(pkt, buf).outbox.send(link, buf, tx)
}

// `accept` and then `send`: the outbox holds as many as before, and the ring goes round.
pub(crate) fn both_rounds(
    outbox: Outbox,
    peer: &[u8],
    pkt: &mut [u8],
    buf: &mut [u8],
    rounds: usize,
) -> Sum {
    let mut line = Line::<ALWAYS_ENOUGH>::heard(peer);
    let held = outbox.held() % 32;
    let mut outbox = outbox;
    let mut sum = Sum::default();
    for i in 0..rounds {
        number(pkt, held + i % 32);
        let sent = turn(outbox, line.link, pkt, buf, &mut line.tx);
        outbox = sent.outbox;
        let n = sent.sent.unwrap_or(0);
        sum.add(n, &line.tx, n.saturating_sub(2));
    }
    sum
}
