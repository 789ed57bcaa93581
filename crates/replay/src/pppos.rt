// The link's calls.
use crate::buffer::{Buffer, ROOM};
use crate::dump::Dump;
use crate::reader::{Counts, Taken};
use crate::show::{Answer, Counted, Hex, Verdict};
use framing::drops::Drops;
use framing::frame_reader::Reading;
use link::choices::Choices;
use link::pppos::{PPPoS, PPPoSAction, ip_packet};
use link::refusal::Refusal;
use serial::line::unopened;
use status_lines::status::{MAX_LINES, text};
use std::fmt::{self, Write};
use std::str;

// A link, its buffers, and what its last consume dropped.
#[derive(Drop)]
pub(crate) struct Uplink {
    pub(crate) link: PPPoS,
    drops: Drops,
    pub(crate) tx: Buffer<ROOM>,
    pub(crate) rx: Buffer<ROOM>,
}

// A refusal of an option that is cut tells its offset too.
fn show_refusal(refusal: Refusal, out: &mut Answer) -> fmt::Result {
    write!(out, "refuse {}", u8::from(refusal))?;
    if let Refusal::Negotiation(options::refusal::Refusal::OptionCut(at)) = refusal {
        write!(out, " {at}")?;
    }
    Ok(())
}

fn show_action(action: Result<PPPoSAction, Refusal>, out: &mut Answer) -> fmt::Result {
    match action {
        Ok(PPPoSAction::Idle) => write!(out, "none"),
        Ok(PPPoSAction::Received { from, to }) => write!(out, "received {from} {to}"),
        Ok(PPPoSAction::Transmit(n)) => write!(out, "transmit {n}"),
        Err(refusal) => show_refusal(refusal, out),
    }
}

impl Uplink {
    pub(crate) fn new() -> Self {
        Uplink {
            link: unopened(),
            drops: Drops::none(),
            tx: Buffer::new(0xEE),
            rx: Buffer::new(0x00),
        }
    }

    pub(crate) fn reset(&mut self) {
        self.link = unopened();
        self.drops = Drops::none();
        self.tx.fill_with(0xEE);
        self.rx.fill_with(0x00);
    }

    pub(crate) fn renew(
        &mut self,
        name: &[u8],
        pass: &[u8],
        reading: Reading,
        out: &mut Answer,
    ) -> fmt::Result {
        let made = PPPoS::new(name, pass, Choices::plain(reading));
        self.link = made.link;
        self.drops = Drops::none();
        write!(out, "new {}", Verdict(made.outcome.map_err(u8::from)))
    }

    pub(crate) fn open(&mut self, out: &mut Answer) -> fmt::Result {
        let opened = self.link.open();
        self.link = opened.link;
        write!(out, "open {}", Verdict(opened.outcome.map_err(u8::from)))
    }

    pub(crate) fn consume(&mut self, room: usize, src: &[u8], out: &mut Answer) -> fmt::Result {
        let consumed = self.link.consume(src, self.rx.lend(room));
        self.link = consumed.link;
        self.drops = consumed.drops;
        let taken = Taken(consumed.taken.map_err(u8::from));
        write!(out, "consume {taken} rx={}", self.rx.shown(room))
    }

    pub(crate) fn poll(&mut self, tx_room: usize, rx_room: usize, out: &mut Answer) -> fmt::Result {
        let polled = self.link.poll(self.tx.lend(tx_room), self.rx.lend(rx_room));
        self.link = polled.link;
        out.write_str("poll ")?;
        show_action(polled.action, out)?;
        write!(
            out,
            " tx={} rx={}",
            self.tx.shown(tx_room),
            self.rx.shown(rx_room)
        )
    }

    pub(crate) fn send(&mut self, room: usize, pkt: &[u8], out: &mut Answer) -> fmt::Result {
        let sent = self.link.send(pkt, self.tx.lend(room));
        let counted = Counted(sent.map_err(u8::from));
        write!(out, "send {counted} tx={}", self.tx.shown(room))
    }

    // A range that runs backwards or past the end is the empty one at the start.
    pub(crate) fn part(
        &self,
        from: usize,
        to: usize,
        room: usize,
        out: &mut Answer,
    ) -> fmt::Result {
        let rx = self.rx.front(room);
        let begin = if from <= to && to <= rx.len() {
            from
        } else {
            0
        };
        write!(out, "part {begin} {}", Hex(ip_packet(rx, from, to)))
    }

    pub(crate) fn status(&self, out: &mut Answer) -> fmt::Result {
        let mut room = [0u8; MAX_LINES];
        let text = text(self.link.status(), &mut room);
        out.write_str("status")?;
        for line in str::from_utf8(text).unwrap_or("").lines() {
            write!(out, " {line}")?;
        }
        Ok(())
    }

    pub(crate) fn dump(&self, out: &mut Answer) -> fmt::Result {
        write!(out, "dump {}", Dump(self.link))
    }

    pub(crate) fn drops(&self, out: &mut Answer) -> fmt::Result {
        write!(out, "drops {}", Counts(self.drops))
    }
}
