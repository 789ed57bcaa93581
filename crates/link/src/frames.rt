// Frames one behind the other in the transmit buffer.
ghost use Rattle.std.specs.Prelude.{◌≡◌, ◌+◌, ◌≤◌, leb, length};
ghost use Rattle.std.proofs.lemmas.List.Edits.{sets};
ghost use Rattle.framing.specs.Rfc1662.{frame};
ghost use Rattle.options.specs.Wire.{max_packet, content_of};
ghost use Rattle.negotiation.specs.Replies.{contents, Short};
ghost use Rattle.link.specs.Frames.{max_frame, frames};

use framing::encode::{encode, frame_len};
use negotiation::replies::{MAX_REPLIES, Replies};
use options::wire::Packet;

const EVERY_BYTE: u32 = 0xFFFF_FFFF;

// The longest reply, every byte escaped.
const MAX_FRAME: usize = 265;

// With so much room a call never lacks any.
pub const ALWAYS_ENOUGH: usize = MAX_REPLIES * MAX_FRAME;

// The frame of `src` behind the first `at` bytes of `tx`, which has the room: the rest of the buffer is lent on.
fn put_frame(tx: &mut [u8], at: usize, src: &[u8]) -> usize
    requires { at + length (frame 0xFFFFFFFF src.now) ≤ length tx.old }
    ensures { (result ≡ at + length (frame 0xFFFFFFFF src.now)) × (tx.new ≡ sets tx.old at (frame 0xFFFFFFFF src.now)) }
{
    at + encode(&mut tx[at..], EVERY_BYTE, src).unwrap_or(0)
}

// How many bytes the packet's frame takes.
fn reply_len(p: Packet) -> usize
    requires { p.len ≤ max_packet }
    ensures { (result ≡ length (frame 0xFFFFFFFF (content_of p))) × (result ≤ max_frame) }
{
    frame_len(EVERY_BYTE, &p.bytes[..p.len])
}

// The packet's frame behind the first `at` bytes of `tx`, which has the room.
fn put_reply(tx: &mut [u8], at: usize, p: Packet) -> usize
    requires { (p.len ≤ max_packet) × (at + length (frame 0xFFFFFFFF (content_of p)) ≤ length tx.old) }
    ensures { (result ≡ at + length (frame 0xFFFFFFFF (content_of p))) × (tx.new ≡ sets tx.old at (frame 0xFFFFFFFF (content_of p))) }
{
    put_frame(tx, at, &p.bytes[..p.len])
}

// `Short` is asked below and no invariant of Replies: docs/PROMISES.md has `Replies::join` for every record.

// How many bytes the frames of all replies take.
fn replies_len(rs: Replies) -> usize
    requires { Short rs }
    ensures { result ≡ length (frames (contents rs)) }
{
    let mut n = 0;
    for p in &rs.packets[..rs.count] {
        n += reply_len(*p);
    }
    n
}

// Whether the frames of all replies take at most `room` bytes; where that is always enough, none is measured.
pub(crate) fn fits(room: usize, rs: Replies) -> bool
    requires { Short rs }
    ensures { result ≡ leb (length (frames (contents rs))) room }
{
    ALWAYS_ENOUGH <= room || replies_len(rs) <= room
}

// The frames of all replies from the front of `tx`, which has the room.
pub(crate) fn put_replies(tx: &mut [u8], rs: Replies) -> usize
    requires { Short rs × (length (frames (contents rs)) ≤ length tx.old) }
    ensures { (result ≡ length (frames (contents rs))) × (tx.new ≡ sets tx.old 0 (frames (contents rs))) }
{
    let mut at = 0;
    for p in &rs.packets[..rs.count] {
        at = put_reply(tx, at, *p);
    }
    at
}
