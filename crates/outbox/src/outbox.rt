// Packets that wait for the link, each behind two bytes of length, in the order accepted. The state goes by value, the buffer is lent.
ghost use Rattle.std.specs.Prelude.{◌≡◌, ◌+◌, ◌≤◌, ◌<◌, length};
ghost use Rattle.link.specs.Link.{Sends};
ghost use Rattle.outbox.specs.Ring.{placed};
ghost use Rattle.outbox.specs.Outbox.{start, reach, is_full, fresh_of, content, sized, entry, first, free, grown, gone, shrunk, accept_of, as_accept, send_of, as_send, answered, up, is_enough};

use crate::refusal::Refusal;
use crate::ring::Ring;
use link::pppos::PPPoS;

#[derive(Clone, Copy, PartialEq, Eq)]
pub struct Outbox {
    pub size: usize,
    // Where the oldest packet's length stands.
    pub front: usize,
    pub used: usize,
    pub held: usize,
}

// A refused call leaves an outbox too, here and in Sent.
#[derive(Clone, Copy, PartialEq, Eq)]
pub struct Accepted {
    pub outcome: Result<(), Refusal>,
    pub outbox: Outbox,
}

// How many bytes of the transmit buffer are to be sent: none where nothing was due.
#[derive(Clone, Copy, PartialEq, Eq)]
pub struct Sent {
    pub sent: Result<usize, Refusal>,
    pub outbox: Outbox,
}

// So many bytes of transmit buffer hold the frame of every packet.
pub const ALWAYS_ENOUGH: usize = 3012;

const LARGEST: usize = 65536;

const LONGEST: usize = 1500;

// A packet's length, high byte first.
fn size_bytes(n: usize) -> [u8; 2]
    requires { n < 65536 }
    ensures { result ≡ sized n }
{
    (n as u16).to_be_bytes()
}

// IPv4CP is Opened.
fn up(l: PPPoS) -> bool
    ensures { result ≡ up l }
{
    l.ppp.ipv4cp.state.is_opened()
}

// Whether a transmit buffer holds the frame of every packet: with less a long one may stay in front for good.
pub fn is_enough(tx: &[u8]) -> bool
    ensures { result ≡ is_enough tx.now }
{
    ALWAYS_ENOUGH <= tx.len()
}

impl Outbox {
    // As large as the buffer, up to 65,536 bytes, and empty.
    pub fn new(buf: &[u8]) -> Self
        ensures { result ≡ fresh_of (length buf.now) }
    {
        Outbox {
            size: buf.len().min(LARGEST),
            front: 0,
            used: 0,
            held: 0,
        }
    }

    pub fn size(self) -> usize
        ensures { result ≡ self.size }
    {
        self.size
    }

    // How many packets are held.
    pub fn held(self) -> usize
        ensures { result ≡ self.held }
    {
        self.held
    }

    // How many bytes are free.
    pub fn free(self) -> usize
        ensures { result ≡ free self }
    {
        self.size.saturating_sub(self.used)
    }

    // The ring from the front on, which is 0 in a record whose front lies outside.
    fn ring(self) -> Ring
        ensures { (result.size ≡ self.size) × (result.front ≡ start self) }
    {
        Ring {
            size: self.size,
            front: if self.front < self.size {
                self.front
            } else {
                0
            },
        }
    }

    // The bytes used, at most all.
    fn reach(self) -> usize
        ensures { (result ≡ reach self) × (result ≤ self.size) }
    {
        self.used.min(self.size)
    }

    fn decline(self, why: Refusal) -> Accepted
        ensures { (result.outcome ≡ Err why) × (result.outbox ≡ self) }
    {
        Accepted {
            outcome: Err(why),
            outbox: self,
        }
    }

    // No free room for a packet of `n` bytes and its length; nor where the count of packets cannot grow.
    fn is_full(self, n: usize) -> bool
        requires { n ≤ 1500 }
        ensures { result ≡ is_full self n }
    {
        self.free() < n + 2 || self.held == usize::MAX
    }

    // `size ≤ length buf` is asked here, of `front_len` and of `send_front`, since the buffer is lent beside the state (document 01).

    // The packet with its length, behind what is used.
    fn store(self, pkt: &[u8], buf: &mut [u8]) -> Self
        requires { (self.size ≤ length buf.old) × (2 + length pkt.now ≤ free self) × (length pkt.now ≤ 1500) × (self.held < 0xFFFFFFFFFFFFFFFF) }
        ensures { (result ≡ grown self (length pkt.now)) × (buf.new ≡ placed self.size (start self) self.used (entry pkt.now) buf.old) }
    {
        let ring = self.ring();
        let head = size_bytes(pkt.len());
        ring.put(buf, self.used, &head);
        ring.put(buf, self.used + 2, pkt);
        Outbox {
            used: self.used + 2 + pkt.len(),
            held: self.held + 1,
            ..self
        }
    }

    // Takes the packet, if the free bytes hold it and its length.
    pub fn accept(self, pkt: &[u8], buf: &mut [u8]) -> Accepted
        ensures { as_accept result buf.new ≡ accept_of self buf.old pkt.now }
    {
        if buf.len() < self.size {
            return self.decline(Refusal::BufferShort);
        }
        if pkt.is_empty() || LONGEST < pkt.len() {
            return self.decline(Refusal::PacketLength);
        }
        if self.is_full(pkt.len()) {
            return self.decline(Refusal::NoRoom);
        }
        Accepted {
            outcome: Ok(()),
            outbox: self.store(pkt, buf),
        }
    }

    // The oldest packet's length as it stands in the buffer, at most what is used behind it.
    fn front_len(self, buf: &[u8]) -> usize
        requires { self.size ≤ length buf.now }
        ensures { result ≡ length (first (content self buf.now)) }
    {
        let reach = self.reach();
        if reach < 2 {
            return 0;
        }
        let ring = self.ring();
        let n = u16::from_be_bytes([ring.byte_at(buf, 0), ring.byte_at(buf, 1)]);
        usize::from(n).min(reach - 2)
    }

    // How many bytes go with a packet of `n` bytes.
    fn gone(self, n: usize) -> usize
        ensures { (result ≡ gone self n) × (result ≤ reach self) × (result ≤ self.size) }
    {
        n.saturating_add(2).min(self.reach())
    }

    // The outbox without its oldest packet, which has `n` bytes.
    fn shrink(self, n: usize) -> Self
        ensures { result ≡ shrunk self n }
    {
        let gone = self.gone(n);
        let front = self.ring().place(gone);
        if self.held <= 1 {
            return Outbox {
                front,
                used: 0,
                held: 0,
                ..self
            };
        }
        Outbox {
            front,
            used: self.reach() - gone,
            held: self.held - 1,
            ..self
        }
    }

    // The frame of the oldest packet, which has `n` bytes and may lie in two parts.
    fn send_front(
        self,
        n: usize,
        l: PPPoS,
        buf: &[u8],
        tx: &mut [u8],
    ) -> Result<usize, link::refusal::Refusal>
        requires { (self.size ≤ length buf.now) × (n ≡ length (first (content self buf.now))) }
        ensures { Sends l (first (content self buf.now)) tx.old result tx.new }
    {
        if n == 0 {
            return l.send(&buf[..0], tx);
        }
        let from = self.ring().place(2);
        let room = self.size - from;
        if n <= room {
            return l.send(&buf[from..from + n], tx);
        }
        l.send_parts(&buf[from..self.size], &buf[..n - room], tx)
    }

    // Sends the oldest packet, if there is one and IPv4CP is Opened.
    pub fn send(self, l: PPPoS, buf: &[u8], tx: &mut [u8]) -> Sent
        ensures { as_send result tx.new ≡ send_of self l buf.now tx.old }
    {
        if buf.len() < self.size {
            return Sent {
                sent: Err(Refusal::BufferShort),
                outbox: self,
            };
        }
        if self.held == 0 || !up(l) {
            return Sent {
                sent: Ok(0),
                outbox: self,
            };
        }
        let n = self.front_len(buf);
        self.answer(n, self.send_front(n, l, buf, tx))
    }

    // What the link's `send` of the oldest packet, which has `n` bytes, comes to.
    fn answer(self, n: usize, sent: Result<usize, link::refusal::Refusal>) -> Sent
        ensures { result ≡ answered self n sent }
    {
        match sent {
            Ok(count) => Sent {
                sent: Ok(count),
                outbox: self.shrink(n),
            },
            Err(why) => Sent {
                sent: Err(Refusal::Link(why)),
                outbox: self,
            },
        }
    }
}
