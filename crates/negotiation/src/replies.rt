// Packets to send: each laid out whole, and some of them in order.
ghost use Rattle.std.specs.Prelude.{◌≡◌, ◌<◌, ◌≤◌, [], length};
ghost use Rattle.options.specs.Wire.{pkt_of, content_of, Tidy, packet_of};
ghost use Rattle.negotiation.specs.Messages.{max_rejected};
ghost use Rattle.negotiation.specs.Replies.{max_replies, replies_of, added, joined, sends_in};

use options::refusal::Refusal;
use options::wire::Packet;

// A received packet is answered by two packets at most, and a phase step sends one.
pub const MAX_REPLIES: usize = 3;

// What one packet leaves of an automaton, of PAP or of authentication; a refused one too, so it is not in the Result.
// `echoed`: the packet is an echo that was answered, so its code becomes 10.
#[derive(Clone, Copy)]
pub struct Handled<S> {
    pub outcome: Result<(), Refusal>,
    pub echoed: bool,
    pub left: S,
    pub replies: Replies,
}

impl<S> Handled<S> {
    pub(crate) fn new(left: S, replies: Replies) -> Self
        ensures { result ≡ sends_in left replies }
    {
        Handled {
            outcome: Ok(()),
            echoed: false,
            left,
            replies,
        }
    }
}

// A packet: protocol, code, id, Length, data.
pub(crate) fn emit(protocol: u16, code: u8, id: u8, d: &[u8]) -> Packet
    requires { length d.now ≤ max_rejected }
    ensures { result ≡ pkt_of (packet_of protocol code id d.now) }
{
    let [p, q] = protocol.to_be_bytes();
    let [m, n] = ((d.len() + 4) as u16).to_be_bytes();
    Packet::blank()
        .push_all(&[p, q, code, id, m, n])
        .push_all(d)
}

// The same, with the bytes of a packet as data.
pub(crate) fn emit_packet(protocol: u16, code: u8, id: u8, b: Packet) -> Packet
    requires { Tidy b × (b.len ≤ max_rejected) }
    ensures { result ≡ pkt_of (packet_of protocol code id (content_of b)) }
{
    emit(protocol, code, id, &b.bytes[..b.len])
}

// Packets to send, in order: the first `count`. No Vec or slice, since the record is Copy and of fixed memory.
#[derive(Clone, Copy)]
pub struct Replies {
    pub count: usize,
    pub packets: [Packet; MAX_REPLIES],
}

impl Replies {
    pub fn none() -> Self
        ensures { (result ≡ replies_of []) × (result.count ≡ 0) }
    {
        Replies {
            count: 0,
            packets: [Packet::blank(); MAX_REPLIES],
        }
    }

    pub(crate) fn add(mut self, p: Packet) -> Self
        requires { self.count < max_replies }
        ensures { result ≡ added self p }
    {
        self.packets[self.count] = p;
        self.count += 1;
        self
    }

    // The first packet of b behind these; a full record stays.
    pub fn join(self, b: Replies) -> Self
        ensures { result ≡ joined self b }
    {
        if b.count == 0 || MAX_REPLIES <= self.count {
            return self;
        }
        self.add(b.packets[0])
    }
}
