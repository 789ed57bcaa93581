// A collector with its outbox and both buffers: packet by packet, as the counter makes them.
use crate::arrival::arrives;
use crate::counts::Counts;
use crate::packet::{LONGEST, packet};
use link::pppos::PPPoS;
use outbox::outbox::{ALWAYS_ENOUGH, Accepted, Outbox};
use std::io;

pub(crate) const SIZE: usize = 4096;

#[derive(Drop)]
pub(crate) struct Queue {
    outbox: Outbox,
    counts: Counts,
    buf: [u8; SIZE],
    tx: [u8; ALWAYS_ENOUGH],
}

impl Queue {
    pub(crate) fn new() -> Self {
        let buf = [0u8; SIZE];
        Queue {
            outbox: Outbox::new(&buf),
            counts: Counts::default(),
            buf,
            tx: [0; ALWAYS_ENOUGH],
        }
    }

    pub(crate) fn held(&self) -> usize {
        self.outbox.held()
    }

    pub(crate) fn show(&self, rt: &impl Print, step: &str) -> io::Result<()> {
        self.counts.show(rt, self.held(), step)
    }

    // Whether the packet was accepted.
    fn take(&mut self, accepted: Accepted) -> bool {
        self.outbox = accepted.outbox;
        match accepted.outcome {
            Ok(()) => {
                self.counts.take_packet();
                true
            }
            Err(why) => {
                self.counts.take_refusal(why);
                false
            }
        }
    }

    pub(crate) fn accept(&mut self, pkt: &[u8]) -> bool {
        let accepted = self.outbox.accept(pkt, &mut self.buf);
        self.take(accepted)
    }

    // Lends a buffer that is a byte short.
    pub(crate) fn accept_short(&mut self, pkt: &[u8]) -> bool {
        let mut short = [0u8; SIZE - 1];
        self.take(self.outbox.accept(pkt, &mut short))
    }

    // Up to `n` packets, until one is refused; one that was refused is next again.
    pub(crate) fn offer_some(&mut self, n: usize) {
        for _ in 0..n {
            let mut room = [0u8; LONGEST];
            if !self.accept(packet(self.counts.accepted, &mut room)) {
                break;
            }
        }
    }

    // What it wrote is read as the other end would.
    fn send(&mut self, link: PPPoS, room: usize) {
        let tx = &mut self.tx[..];
        let len = room.min(tx.len());
        let sent = self.outbox.send(link, &self.buf, &mut tx[..len]);
        let is_wrap = sent.outbox.front < self.outbox.front;
        self.outbox = sent.outbox;
        match sent.sent {
            Err(why) => self.counts.take_refusal(why),
            Ok(0) => self.counts.take_idle(),
            Ok(n) => {
                let frame = &self.tx[..n.min(ALWAYS_ENOUGH)];
                let is_same = arrives(frame, self.counts.next());
                self.counts.take_frame(is_same, is_wrap);
            }
        }
    }

    // `n` sends into so many bytes of the transmit buffer.
    pub(crate) fn send_some(&mut self, n: usize, link: PPPoS, room: usize) {
        for _ in 0..n {
            self.send(link, room);
        }
    }
}
