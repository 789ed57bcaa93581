// One end: its link, its buffers, and what went over the wires.
use crate::offer::{Known, ids, knows, offer};
use framing::encode::encode;
use link::frames::ALWAYS_ENOUGH;
use link::pppos::{PPPoS, PPPoSAction, ip_packet};
use serial::line::unopened;

// No meeting writes so much that a transmit buffer behind it is short. An array beside `sent`, since the free rest is lent to a poll.
const WIRE: usize = 2048;
// The least that is enough.
const RX: usize = 27;

// `sent` bytes are on its own wire, from the front, and `heard` bytes of the other end's were consumed. Then how many calls were
// refused, how many steps took none of the bytes that were handed in, and what the link knew and used when it was opened.
#[derive(Drop)]
pub(crate) struct End {
    pub(crate) link: PPPoS,
    wire: [u8; WIRE],
    rx: [u8; RX],
    sent: usize,
    heard: usize,
    pub(crate) refused: usize,
    pub(crate) stuck: usize,
    pub(crate) known: Known,
    pub(crate) ids: [u8; 2],
}

// The first `n` bytes, or all where there are fewer.
fn front(s: &[u8], n: usize) -> &[u8] {
    &s[..n.min(s.len())]
}

impl End {
    pub(crate) fn new() -> Self {
        let link = unopened();
        End {
            link,
            wire: [0; WIRE],
            rx: [0; RX],
            sent: 0,
            heard: 0,
            refused: 0,
            stuck: 0,
            known: knows(link),
            ids: ids(link),
        }
    }

    fn refuse(&mut self) {
        self.refused = self.refused.saturating_add(1);
    }

    // The transmit buffer is the part of the wire behind what was sent. Nobody sends an IP packet here, so one that is received is as
    // wrong as a refusal.
    fn poll(&mut self) {
        let sent = self.sent.min(WIRE);
        let wire = &mut self.wire[..];
        let behind = &mut wire[sent..];
        let room = ALWAYS_ENOUGH.min(behind.len());
        let polled = self.link.poll(&mut behind[..room], &mut self.rx);
        self.link = polled.link;
        match polled.action {
            Ok(PPPoSAction::Idle) => {}
            Ok(PPPoSAction::Transmit(n)) => self.sent = sent.saturating_add(n),
            Ok(PPPoSAction::Received { from: _, to: _ }) | Err(_) => self.refuse(),
        }
    }

    fn step(&mut self, src: &[u8]) {
        let consumed = self.link.consume(src, &mut self.rx);
        self.link = consumed.link;
        if consumed.taken.is_err() {
            self.refuse();
        }
        let n = consumed.taken.unwrap_or(0);
        self.heard = self.heard.saturating_add(n);
        if !src.is_empty() && n == 0 {
            self.stuck = self.stuck.saturating_add(1);
        }
        self.poll();
    }

    // Takes up to `n` of the bytes that are under way from the other end.
    pub(crate) fn hear(&mut self, other: &End, n: usize) {
        let under_way = ip_packet(&other.wire, self.heard, other.sent);
        self.step(front(under_way, n));
    }

    // Whether all that the other end sent is consumed.
    pub(crate) fn has_heard(&self, other: &End) -> bool {
        self.heard == other.sent
    }

    // How many frames it wrote: each has a flag at either end, and no other.
    pub(crate) fn frames(&self) -> usize {
        let flags = front(&self.wire, self.sent).iter().filter(|&&b| b == 0x7E);
        flags.count() / 2
    }

    // Opens the link, and polls once.
    fn begin(&mut self) {
        let opened = self.link.open();
        self.link = opened.link;
        if opened.outcome.is_err() {
            self.refuse();
        }
        self.poll();
    }

    // A Terminate-Request takes the link from Open to Dead; the reply is thrown away. Then it offers what the bits of `c` say.
    fn change(&mut self, c: u8, x: u32) {
        let mut frame = [0u8; 32];
        let encoded = encode(&mut frame, 0xFFFF_FFFF, b"\xC0\x21\x05\x07\x00\x04");
        self.step(front(&frame, encoded.unwrap_or(0)));
        self.sent = 0;
        self.heard = 0;
        offer(&mut self.link, c, x);
    }

    // The end as it begins a meeting; its counts are those of the meeting.
    pub(crate) fn ready(&mut self, is_fresh: bool, c: u8, x: u32) {
        self.sent = 0;
        self.heard = 0;
        self.refused = 0;
        self.stuck = 0;
        if is_fresh {
            self.link = unopened();
        } else {
            self.change(c, x);
        }
        self.known = knows(self.link);
        self.ids = ids(self.link);
        self.begin();
    }
}
