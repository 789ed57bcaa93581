// The link: not open, or opened by what the other end sent.
use link::frames::ALWAYS_ENOUGH;
use link::pppos::PPPoS;
use serial::line::Line;
use std::io::{self, Read};
use streams::read_full;

// What the other end sent is the input: 4,096 bytes of it are enough.
pub(crate) fn opened<R: Read>(input: &mut R) -> io::Result<PPPoS> {
    let mut bytes = [0u8; 4096];
    let n = read_full(input, &mut bytes)?;
    Ok(Line::<ALWAYS_ENOUGH>::heard(&bytes[..n]).link)
}

pub(crate) fn show(rt: &impl Print, link: PPPoS) -> io::Result<()> {
    match link.status().ipv4 {
        None => rt.println("ipv4=down"),
        Some(_) => rt.println("ipv4=up"),
    }
}
