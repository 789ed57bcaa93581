// The outbox's calls.
use crate::buffer::Buffer;
use crate::pppos::Uplink;
use crate::show::{Answer, Counted, Verdict};
use outbox::outbox::Outbox;
use std::fmt::{self, Write};

// How long the outbox's buffer is.
pub(crate) const WIDE_ROOM: usize = 70000;

// An outbox, and the buffer of which it is lent as much as a call says.
#[derive(Drop)]
pub(crate) struct Waiting {
    outbox: Outbox,
    buf: Buffer<WIDE_ROOM>,
}

impl Waiting {
    // Before the first `obnew` there is no room.
    pub(crate) fn new() -> Self {
        Waiting {
            outbox: Outbox::new(b""),
            buf: Buffer::new(0),
        }
    }

    pub(crate) fn reset(&mut self) {
        self.buf.fill_with(0);
        self.outbox = Outbox::new(b"");
    }

    pub(crate) fn renew(&mut self, size: usize, out: &mut Answer) -> fmt::Result {
        self.buf.fill_with(0);
        self.outbox = Outbox::new(self.buf.front(size));
        write!(out, "obnew ok size={}", self.outbox.size())?;
        self.left(out)
    }

    // What is held, and how much more may be.
    fn left(&self, out: &mut Answer) -> fmt::Result {
        write!(
            out,
            " held={} free={}",
            self.outbox.held(),
            self.outbox.free()
        )
    }

    pub(crate) fn accept(&mut self, room: usize, pkt: &[u8], out: &mut Answer) -> fmt::Result {
        let accepted = self.outbox.accept(pkt, self.buf.lend(room));
        self.outbox = accepted.outbox;
        let said = Verdict(accepted.outcome.map_err(u8::from));
        write!(out, "obaccept {said}")?;
        self.left(out)
    }

    pub(crate) fn send(
        &mut self,
        uplink: &mut Uplink,
        room: usize,
        tx_room: usize,
        out: &mut Answer,
    ) -> fmt::Result {
        let sent = self
            .outbox
            .send(uplink.link, self.buf.front(room), uplink.tx.lend(tx_room));
        self.outbox = sent.outbox;
        let counted = Counted(sent.sent.map_err(u8::from));
        write!(out, "obsend {counted}")?;
        self.left(out)?;
        write!(out, " tx={}", uplink.tx.shown(tx_room))
    }

    pub(crate) fn buffer(&self, room: usize, out: &mut Answer) -> fmt::Result {
        write!(out, "obbuf {}", self.buf.shown(room))
    }
}
