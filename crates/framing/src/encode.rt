// One packet: its frame in a lent buffer, and the frame's length.
ghost use Rattle.std.specs.Prelude.{◌≡◌, ◌++◌, ◌*◌, ◌≤◌, is_ok, length};
ghost use Rattle.framing.specs.Rfc1662.{unit, stuffed, frame};
ghost use Rattle.framing.specs.Writer.{frame_units, reached, walked_to, check_at, Ran, Walked, Encodes, capped};

use crate::crc::crc16;
use crate::frame_writer::{Full, STARTED, check_bytes, escapes, finish_at, start_at, walk};
use crate::refusal::Refusal;

// The three parts go on as they were lent: a record of them would be made here alone.

// Three parts behind FF 03, walked one behind the other.
fn body_at(
    buf: &mut [u8],
    at: usize,
    asyncmap: u32,
    head: &[u8],
    part: &[u8],
    rest: &[u8],
) -> Result<(usize, u16), Full>
    ensures { Walked asyncmap (head.now ++ (part.now ++ rest.now)) buf.old at 0x3DE3 buf.new (walked_to result) (check_at result) (is_ok result) }
{
    let (at, crc) = walk(buf, at, asyncmap, STARTED, head)?;
    let (at, crc) = walk(buf, at, asyncmap, crc, part)?;
    walk(buf, at, asyncmap, crc, rest)
}

// The frame of a packet that lies in three parts.
fn frame_at(
    buf: &mut [u8],
    at: usize,
    asyncmap: u32,
    head: &[u8],
    part: &[u8],
    rest: &[u8],
) -> Result<usize, Full>
    ensures { Ran (frame_units asyncmap (head.now ++ (part.now ++ rest.now))) buf.old at buf.new (reached result) (is_ok result) }
{
    let at = start_at(buf, at, asyncmap)?;
    let (at, crc) = body_at(buf, at, asyncmap, head, part, rest)?;
    finish_at(buf, at, asyncmap, crc)
}

// The frame of a packet that lies in three parts, from the front of `buf`, and its length.
pub fn encode_parts(
    buf: &mut [u8],
    asyncmap: u32,
    head: &[u8],
    part: &[u8],
    rest: &[u8],
) -> Result<usize, Refusal>
    ensures { Encodes asyncmap (head.now ++ (part.now ++ rest.now)) buf.old result buf.new }
{
    Ok(frame_at(buf, 0, asyncmap, head, part, rest)?)
}

// The frame of `src` from the front of `buf`, and its length.
pub fn encode(buf: &mut [u8], asyncmap: u32, src: &[u8]) -> Result<usize, Refusal>
    ensures { Encodes asyncmap src.now buf.old result buf.new }
{
    encode_parts(buf, asyncmap, src, &[], &[])
}

fn unit_len(asyncmap: u32, b: u8) -> usize
    ensures { (result ≡ length (unit asyncmap b)) × (result ≤ 2) }
{
    if escapes(asyncmap, b) { 2 } else { 1 }
}

// How many bytes `src` takes as it is sent.
fn stuffed_len(asyncmap: u32, src: &[u8]) -> usize
    ensures { (result ≡ length (stuffed asyncmap src.now)) × (result ≤ 2 * length src.now) }
{
    let mut n = 0;
    for &b in src {
        n += unit_len(asyncmap, b);
    }
    n
}

// How many bytes the frame of `src` takes, or the largest number where that is larger still.
pub fn frame_len(asyncmap: u32, src: &[u8]) -> usize
    ensures { result ≡ capped (length (frame asyncmap src.now)) }
{
    let check = check_bytes(crc16(STARTED, src));
    let ends = 3 + unit_len(asyncmap, 0x03) + stuffed_len(asyncmap, &check);
    stuffed_len(asyncmap, src).saturating_add(ends)
}
