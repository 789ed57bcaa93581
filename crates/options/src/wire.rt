// Numbers on the wire, and packets as bytes in a fixed array.
ghost use Rattle.std.specs.Prelude.{◌≡◌, [], ◌≤◌, length};
ghost use Rattle.laws.specs.Be.{be_of};
ghost use Rattle.options.specs.Wire.{pkt_of, Tidy, protocol_in, length_field, pushed_all};
ghost use Rattle.options.specs.Options.{own_field};

// The bytes that a packet has room for.
pub const MAX_PACKET: usize = 128;

// What a reply may list: so many options, and so many data bytes in each.
pub(crate) const MAX_OPTIONS: usize = 6;

pub(crate) const MAX_OPTION_LEN: usize = 4;

// An own option of four data bytes, with its header.
const FIELD_SIZE: u8 = 6;

// Numbers and no enums: a packet may have any, and matches read them as patterns; an enum would need a way there and back for no more.
// ProtocolType
pub const LCP: u16 = 0xC021;

pub const PAP: u16 = 0xC023;

pub const IPV4: u16 = 0x0021;

pub const IPV4CP: u16 = 0x8021;

// Code
pub const CONFIGURE_REQ: u8 = 1;

pub const CONFIGURE_ACK: u8 = 2;

pub const CONFIGURE_NACK: u8 = 3;

pub const CONFIGURE_REJ: u8 = 4;

pub const TERMINATE_REQ: u8 = 5;

pub const TERMINATE_ACK: u8 = 6;

pub const PROTOCOL_REJ: u8 = 8;

pub const ECHO_REQ: u8 = 9;

pub const ECHO_REPLY: u8 = 10;

pub const DISCARD_REQ: u8 = 11;

// The number that the bytes of a field say.
pub(crate) fn be(d: &[u8]) -> u32
    requires { length d.now ≤ 4 }
    ensures { result ≡ be_of d.now }
{
    let mut v = 0;
    for &b in d {
        v = v * 256 + u32::from(b);
    }
    v
}

// The protocol number of a packet; one of under two bytes says what it has.
pub fn protocol_in(pkt: &[u8]) -> u32
    ensures { result ≡ protocol_in pkt.now }
{
    be(&pkt[..pkt.len().min(2)])
}

// What the Length field of a packet says; a packet that ends before it says what it has.
pub fn length_in(pkt: &[u8]) -> u32
    ensures { result ≡ length_field pkt.now }
{
    protocol_in(&pkt[pkt.len().min(4)..])
}

// An array and its length, since memory is fixed and the record is Copy; and no invariant: `push_all` promises what it does for every
// record (docs/PROMISES.md).
#[derive(Clone, Copy)]
pub struct Packet {
    pub len: usize,
    pub bytes: [u8; MAX_PACKET],
}

impl Packet {
    pub fn blank() -> Self
        ensures { (result ≡ pkt_of []) × Tidy result × (result.len ≡ 0) }
    {
        Packet {
            len: 0,
            bytes: [0; MAX_PACKET],
        }
    }

    // The bytes of d behind those held; where there is no room for all of them, the packet stays.
    pub fn push_all(self, d: &[u8]) -> Self
        ensures { result ≡ pushed_all self d.now }
    {
        if MAX_PACKET < self.len || MAX_PACKET - self.len < d.len() {
            return self;
        }
        let mut p = self;
        let end = self.len + d.len();
        p.bytes[self.len..end].copy_from_slice(d);
        p.len = end;
        p
    }

    // An own option of four data bytes behind what the packet holds, unless it was dropped.
    pub(crate) fn push_field(self, is_dropped: bool, code: u8, v: u32) -> Self
        ensures { result ≡ pushed_all self (own_field is_dropped code v) }
    {
        if is_dropped {
            return self;
        }
        let [a, b, c, d] = v.to_be_bytes();
        self.push_all(&[code, FIELD_SIZE, a, b, c, d])
    }
}
