// The status lines: phase, ipv4, address, peer, dns1, dns2, each ended by LF.
ghost use Rattle.std.specs.Prelude.{◌≡◌, cond, [], ◌+◌, ◌≤◌, ◌<◌, leb, length};
ghost use Rattle.status_lines.specs.Lines.{phase_name, up_name, decimal, dotted, address_text, address_line, head_of, fields_of, six_lines, lines_of, Puts, Shows};

use framing::refusal::Refusal;
use phases::ppp::{Phase, Status};

// The lines of a status are never longer.
pub const MAX_LINES: usize = 111;

// What the lines say, in their order: the record that `fields_of` and `six_lines` are stated over.
#[derive(Clone, Copy)]
pub(crate) struct Fields {
    pub(crate) phase: Phase,
    pub(crate) up: bool,
    pub(crate) address: Option<u32>,
    pub(crate) peer: Option<u32>,
    pub(crate) dns1: Option<u32>,
    pub(crate) dns2: Option<u32>,
}

// Buffer and place go side by side below and in no record, and the room is asked of each: `Puts` says what the lent buffer holds then.

// The bytes of `src` behind the first `at` bytes of `buf`, which has the room.
fn put(buf: &mut [u8], at: usize, src: &[u8]) -> usize
    requires { at + length src.now ≤ length buf.old }
    ensures { Puts src.now buf.old at result buf.new }
{
    let end = at + src.len();
    buf[at..end].copy_from_slice(src);
    end
}

// Digits by hand and no `Display`: a contract says which bytes they are, and for `fmt` none does.
fn put_decimal(buf: &mut [u8], at: usize, n: u8) -> usize
    requires { at + 3 ≤ length buf.old }
    ensures { Puts (decimal n) buf.old at result buf.new × (result ≤ at + 3) }
{
    if n < 10 {
        return put(buf, at, &[b'0' + n]);
    }
    if n < 100 {
        return put(buf, at, &[b'0' + n / 10, b'0' + n % 10]);
    }
    put(
        buf,
        at,
        &[b'0' + n / 100, b'0' + n / 10 % 10, b'0' + n % 10],
    )
}

fn put_dotted(buf: &mut [u8], at: usize, address: u32) -> usize
    requires { at + 15 ≤ length buf.old }
    ensures { Puts (dotted address) buf.old at result buf.new }
{
    let [a, b, c, d] = address.to_be_bytes();
    let i = put_decimal(buf, at, a);
    let i = put(buf, i, b".");
    let i = put_decimal(buf, i, b);
    let i = put(buf, i, b".");
    let i = put_decimal(buf, i, c);
    let i = put(buf, i, b".");
    put_decimal(buf, i, d)
}

fn put_address(buf: &mut [u8], at: usize, a: Option<u32>) -> usize
    requires { at + 15 ≤ length buf.old }
    ensures { Puts (address_text a) buf.old at result buf.new }
{
    match a {
        Some(a) => put_dotted(buf, at, a),
        None => put(buf, at, b"none"),
    }
}

fn phase_name(f: Phase) -> &'static [u8]
    ensures { result.now ≡ phase_name f }
{
    match f {
        Phase::Dead => b"dead",
        Phase::Establish => b"establish",
        Phase::Auth => b"auth",
        Phase::Network => b"network",
        Phase::Open => b"open",
    }
}

fn up_name(up: bool) -> &'static [u8]
    ensures { result.now ≡ up_name up }
{
    if up { b"up" } else { b"down" }
}

// A line with an address.
fn put_line(buf: &mut [u8], at: usize, key: &[u8], a: Option<u32>) -> usize
    requires { at + length key.now + 16 ≤ length buf.old }
    ensures { Puts (address_line key.now a) buf.old at result buf.new }
{
    let i = put(buf, at, key);
    let i = put_address(buf, i, a);
    put(buf, i, b"\n")
}

// The phase and whether IPv4 is up.
fn put_head(buf: &mut [u8], f: Phase, up: bool) -> usize
    requires { 26 ≤ length buf.old }
    ensures { Puts (head_of f up) buf.old 0 result buf.new }
{
    let i = put(buf, 0, b"phase=");
    let i = put(buf, i, phase_name(f));
    let i = put(buf, i, b"\nipv4=");
    let i = put(buf, i, up_name(up));
    put(buf, i, b"\n")
}

fn put_lines(buf: &mut [u8], s: Fields) -> usize
    requires { 113 ≤ length buf.old }
    ensures { Puts (six_lines s) buf.old 0 result buf.new }
{
    let i = put_head(buf, s.phase, s.up);
    let i = put_line(buf, i, b"address=", s.address);
    let i = put_line(buf, i, b"peer=", s.peer);
    let i = put_line(buf, i, b"dns1=", s.dns1);
    put_line(buf, i, b"dns2=", s.dns2)
}

// While IPv4 is down there is no address.
fn fields_of(s: Status) -> Fields
    ensures { result ≡ fields_of s }
{
    Fields {
        phase: s.phase,
        up: s.ipv4.is_some(),
        address: s.ipv4.and_then(|a| a.address),
        peer: s.ipv4.and_then(|a| a.peer_address),
        dns1: s.ipv4.and_then(|a| a.dns_server_1),
        dns2: s.ipv4.and_then(|a| a.dns_server_2),
    }
}

// All six lines from the front of `out` and how many bytes they are, or nothing.
pub fn lines(s: Status, out: &mut [u8]) -> Result<usize, Refusal>
    ensures { Shows s out.old result out.new }
{
    let mut text = [0; 113];
    let n = put_lines(&mut text, fields_of(s));
    if out.len() < n {
        return Err(Refusal::BufferFull);
    }
    Ok(put(out, 0, &text[..n]))
}

// The lines at the front of `out`, for a caller that prints them; none where they don't fit.
pub fn text(s: Status, out: &mut [u8]) -> &mut [u8]
    ensures { result.now ≡ cond (leb (length (lines_of s)) (length out.old)) (lines_of s) [] }
{
    let n = lines(s, out).unwrap_or(0);
    &mut out[..n]
}
