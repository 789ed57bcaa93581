// The link: PPP over a serial line. Its state goes by value; the transmit and the receive buffer are lent to each call.
ghost use Rattle.std.specs.Prelude.{◌≡◌, ◌++◌, ◌-◌, ◌≤◌, length, take, drop};
ghost use Rattle.framing.specs.Drops.{dropped};
ghost use Rattle.phases.specs.Phases.{status_of};
ghost use Rattle.link.specs.Choices.{choices_of};
ghost use Rattle.link.specs.Link.{link_of, held_by, Makes, Opens, Consumes, echoed_in, as_poll, is_ip, packet_poll, poll_link, Polls, Sends, HandsOut, written, answered_poll, as_turn};
ghost use Rattle.negotiation.specs.Replies.{Short};

use crate::choices::Choices;
use crate::frames::{fits, put_replies};
use crate::refusal::Refusal;
use framing::drops::Drops;
use framing::encode::encode_parts;
use framing::frame_reader::{FrameReader, Received};
use options::wire::ECHO_REPLY;
use phases::ppp::{Ppp, Status, Turned};

#[derive(Clone, Copy)]
pub struct PPPoS {
    pub frame_reader: FrameReader,
    pub ppp: Ppp,
}

#[derive(Clone, Copy, PartialEq, Eq)]
pub enum PPPoSAction {
    // Nothing to do.
    Idle,
    // An IP packet lies in this range of the receive buffer; no `Range`, which is not Copy.
    Received { from: usize, to: usize },
    // So many bytes of the transmit buffer are to be sent.
    Transmit(usize),
}

// A refused call leaves a link too.
#[derive(Clone, Copy)]
pub struct Changed {
    pub outcome: Result<(), Refusal>,
    pub link: PPPoS,
}

// How many bytes were taken, what the link is then, and what was dropped.
#[derive(Clone, Copy)]
pub struct Consumed {
    pub taken: Result<usize, Refusal>,
    pub link: PPPoS,
    pub drops: Drops,
}

#[derive(Clone, Copy)]
pub struct Polled {
    pub action: Result<PPPoSAction, Refusal>,
    pub link: PPPoS,
}

fn is_ip(pkt: &[u8]) -> bool
    ensures { result ≡ is_ip pkt.now }
{
    pkt.starts_with(&[0x00, 0x21])
}

// The code of an answered echo, in the packet as it was received.
fn store_echo(echoed: bool, rx: &mut [u8])
    ensures { rx.new ≡ echoed_in echoed rx.old }
{
    if echoed && 3 < rx.len() {
        rx[3] = ECHO_REPLY;
    }
}

impl PPPoS {
    // Phase Dead; `open` starts the link.
    pub fn new(username: &[u8], password: &[u8], choices: Choices) -> Changed
        ensures { Makes username.now password.now choices result.outcome result.link }
    {
        let c = Ppp::new(username, password);
        Changed {
            outcome: c.outcome.map_err(Refusal::Negotiation),
            link: PPPoS {
                frame_reader: FrameReader::new(choices.reading),
                ppp: c.ppp,
            },
        }
    }

    // What was chosen when the link was made.
    pub fn choices(self) -> Choices
        ensures { result ≡ choices_of self }
    {
        Choices {
            reading: self.frame_reader.reading,
        }
    }

    pub fn open(self) -> Changed
        ensures { Opens self result.outcome result.link }
    {
        let c = self.ppp.open();
        Changed {
            outcome: c.outcome.map_err(Refusal::Negotiation),
            link: PPPoS { ppp: c.ppp, ..self },
        }
    }

    pub fn status(self) -> Status
        ensures { result ≡ status_of self.ppp }
    {
        self.ppp.status()
    }

    // Takes received bytes, up to the end of a good frame: what stands behind those taken is to be handed in again, after `poll`.
    pub fn consume(self, src: &[u8], rx: &mut [u8]) -> Consumed
        ensures consumes { Consumes self rx.old src.now result.taken result.link rx.new }
        ensures drops_value { result.drops ≡ dropped (held_by self rx.old) src.now }
    {
        let c = self.frame_reader.consume(rx, src);
        Consumed {
            taken: c.taken.map_err(Refusal::Framing),
            link: self.with_reader(c.reader),
            drops: c.drops,
        }
    }

    fn with_reader(self, frame_reader: FrameReader) -> Self
        ensures { result ≡ link_of frame_reader self.ppp }
    {
        PPPoS {
            frame_reader,
            ..self
        }
    }

    fn decline(self, why: Refusal) -> Polled
        ensures { (result.action ≡ Err why) × (result.link ≡ self) }
    {
        Polled {
            action: Err(why),
            link: self,
        }
    }

    // The frames of a turn, all of them or none.
    fn write(self, r: FrameReader, t: Turned, tx: &mut [u8], rx: &mut [u8]) -> Polled
        requires { Short t.replies }
        ensures { as_poll result tx.new rx.new ≡ written self r (as_turn t) tx.old rx.old }
    {
        if !fits(tx.len(), t.replies) {
            return self.decline(Refusal::FramesFull);
        }
        let n = put_replies(tx, t.replies);
        store_echo(t.echoed, rx);
        let link = PPPoS {
            frame_reader: r,
            ppp: t.ppp,
        };
        if n == 0 {
            return Polled {
                action: Ok(PPPoSAction::Idle),
                link,
            };
        }
        Polled {
            action: Ok(PPPoSAction::Transmit(n)),
            link,
        }
    }

    // What a turn of negotiation comes to; a refused packet is dropped.
    fn answer(self, r: FrameReader, t: Turned, tx: &mut [u8], rx: &mut [u8]) -> Polled
        requires { Short t.replies }
        ensures { as_poll result tx.new rx.new ≡ answered_poll self r (as_turn t) tx.old rx.old }
    {
        match t.outcome {
            Ok(()) => self.write(r, t, tx, rx),
            Err(why) => self.with_reader(r).decline(Refusal::Negotiation(why)),
        }
    }

    fn poll_packet(self, r: FrameReader, to: usize, tx: &mut [u8], rx: &mut [u8]) -> Polled
        requires { (1 ≤ to) × (to ≤ length rx.old) }
        ensures { as_poll result tx.new rx.new ≡ packet_poll self r to tx.old rx.old (take (to - 1) (drop 1 rx.old)) }
    {
        if is_ip(&rx[1..to]) {
            return Polled {
                action: Ok(PPPoSAction::Received { from: 3, to }),
                link: self.with_reader(r),
            };
        }
        let t = self.ppp.turn(&rx[1..to]);
        self.answer(r, t, tx, rx)
    }

    // Handles the received frame, if there is one, takes a phase step, and writes what is to be sent.
    pub fn poll(self, tx: &mut [u8], rx: &mut [u8]) -> Polled
        ensures { Polls (poll_link self tx.old rx.old) result.action result.link tx.new rx.new }
    {
        if rx.len() < self.frame_reader.len {
            return self.decline(Refusal::Framing(framing::refusal::Refusal::BufferShort));
        }
        let Received { got, reader } = self.frame_reader.receive();
        match got {
            Err(why) => self.with_reader(reader).decline(Refusal::Framing(why)),
            Ok(frame) => match frame {
                Some(packet) => self.poll_packet(reader, packet.end, tx, rx),
                // Most polls find nothing to do: they are spared the copies of a step.
                None if self.ppp.rests() => Polled {
                    action: Ok(PPPoSAction::Idle),
                    link: self,
                },
                None => self.answer(self.frame_reader, self.ppp.poll(), tx, rx),
            },
        }
    }

    // The frame of an IP packet, in every phase, and its length.
    pub fn send(self, pkt: &[u8], tx: &mut [u8]) -> Result<usize, Refusal>
        ensures { Sends self pkt.now tx.old result tx.new }
    {
        self.send_parts(pkt, &[], tx)
    }

    // The frame of an IP packet that lies in two parts, and its length.
    pub fn send_parts(self, part: &[u8], rest: &[u8], tx: &mut [u8]) -> Result<usize, Refusal>
        ensures { Sends self (part.now ++ rest.now) tx.old result tx.new }
    {
        let map = self.ppp.lcp.proto.asyncmap_remote;
        encode_parts(tx, map, &[0x00, 0x21], part, rest).map_err(Refusal::Framing)
    }
}

// The bytes of a range of the receive buffer, as `poll` answers it; none if the range runs backwards or past the end.
pub fn ip_packet(rx: &[u8], from: usize, to: usize) -> &[u8]
    ensures { HandsOut rx.entry from to result }
{
    if to < from || rx.len() < to {
        return &rx[..0];
    }
    &rx[from..to]
}
