// What the other end reads of a frame.
use crate::packet::{LONGEST, packet};
use framing::frame_reader::{FrameReader, Reading};
use link::pppos::ip_packet;

// Whether the bytes are the protocol IPv4 and packet `n`.
fn is_packet(bytes: &[u8], n: usize) -> bool {
    let mut room = [0u8; LONGEST];
    match bytes {
        [0x00, 0x21, rest @ ..] => rest == packet(n, &mut room),
        _ => false,
    }
}

// Whether the bytes are one frame, of packet `n`.
pub(crate) fn arrives(frame: &[u8], n: usize) -> bool {
    let mut kept = [0u8; 1600];
    let consumed = FrameReader::new(Reading::Standard).consume(&mut kept, frame);
    if consumed.taken.unwrap_or(0) != frame.len() {
        return false;
    }
    match consumed.reader.receive().got {
        Ok(Some(range)) => is_packet(ip_packet(&kept, range.start, range.end), n),
        Ok(None) | Err(_) => false,
    }
}
