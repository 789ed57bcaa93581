// The frame writer: its state by value, the buffer lent to each call.
ghost use Rattle.std.specs.Prelude.{◌≡◌, [], ◌∷◌, ◌/◌, ◌%◌, true, false, is_ok};
ghost use Rattle.framing.specs.Rfc1662.{escaped, unit, check_bytes};
ghost use Rattle.framing.specs.Refusal.{outcome_number};
ghost use Rattle.framing.specs.declared.refusal.Refusal.TheVariants.{BufferFull};
ghost use Rattle.framing.specs.Writer.{units, start_units, finish_units, reached, walked_to, check_at, Ran, Walked, fresh_writer, written, Starts, Appends, Finishes};

use crate::crc::step;
use crate::refusal::Refusal;

// The check value behind FF 03.
pub(crate) const STARTED: u16 = 0x3DE3;

#[derive(Clone, Copy)]
pub struct FrameWriter {
    pub len: usize,
    pub crc: u16,
    pub asyncmap: u32,
}

// The writer stands beside the outcome and not in it: a refused call leaves one too, which goes on where the call stopped.
#[derive(Clone, Copy)]
pub struct Wrote {
    pub outcome: Result<(), Refusal>,
    pub writer: FrameWriter,
}

// A unit does not fit: nothing of it is written, and this is where it was to go.
#[derive(Clone, Copy)]
pub(crate) struct Full {
    pub(crate) at: usize,
}

// Buffer, place, map and check value go side by side below, and no writer does: a method would hand a whole writer back where `?` hands on
// a place, and document 01 wants the buffer lent beside the state.

impl From<Full> for Refusal {
    ghost from_gives = { λ full r. r ≡ BufferFull };

    fn from(_full: Full) -> Self {
        Refusal::BufferFull
    }
}

// A unit of one byte.
fn append_one(buf: &mut [u8], at: usize, a: u8) -> Result<usize, Full>
    ensures { Ran ((a ∷ []) ∷ []) buf.old at buf.new (reached result) (is_ok result) }
{
    if buf.len() <= at {
        return Err(Full { at });
    }
    buf[at] = a;
    Ok(at + 1)
}

// A unit of two bytes.
fn append_two(buf: &mut [u8], at: usize, a: u8, b: u8) -> Result<usize, Full>
    ensures { Ran ((a ∷ b ∷ []) ∷ []) buf.old at buf.new (reached result) (is_ok result) }
{
    if buf.len() < 2 || buf.len() - 2 < at {
        return Err(Full { at });
    }
    buf[at] = a;
    buf[at + 1] = b;
    Ok(at + 2)
}

// Which bytes are escaped: 7D, 7E, and what the map says below 20.
pub(crate) fn escapes(asyncmap: u32, b: u8) -> bool
    ensures { result ≡ escaped asyncmap b }
{
    if b < 0x20 {
        return (asyncmap >> u32::from(b)) % 2 == 1;
    }
    b == 0x7D || b == 0x7E
}

// A byte as it is sent.
fn append_byte(buf: &mut [u8], at: usize, asyncmap: u32, b: u8) -> Result<usize, Full>
    ensures { Ran (unit asyncmap b ∷ []) buf.old at buf.new (reached result) (is_ok result) }
{
    if escapes(asyncmap, b) {
        return append_two(buf, at, 0x7D, b ^ 0x20);
    }
    append_one(buf, at, b)
}

// Each byte once, up to the first that does not fit: the check value steps over it as it is, and beside that it is written as it is sent.
pub(crate) fn walk(
    buf: &mut [u8],
    at: usize,
    asyncmap: u32,
    crc: u16,
    src: &[u8],
) -> Result<(usize, u16), Full>
    ensures { Walked asyncmap src.now buf.old at crc buf.new (walked_to result) (check_at result) (is_ok result) }
{
    let mut at = at;
    let mut crc = crc;
    for &b in src {
        crc = step(crc, b);
        at = append_byte(buf, at, asyncmap, b)?;
    }
    Ok((at, crc))
}

// 7E FF, and the control byte.
pub(crate) fn start_at(buf: &mut [u8], at: usize, asyncmap: u32) -> Result<usize, Full>
    ensures { Ran (start_units asyncmap) buf.old at buf.new (reached result) (is_ok result) }
{
    let at = append_two(buf, at, 0x7E, 0xFF)?;
    append_byte(buf, at, asyncmap, 0x03)
}

// The check value as it goes out: inverted, low byte first.
pub(crate) fn check_bytes(crc: u16) -> [u8; 2]
    ensures { result ≡ check_bytes crc }
{
    (crc ^ 0xFFFF).to_le_bytes()
}

// The check bytes as they are sent, and 7E: no check value goes over them, so they are not walked.
pub(crate) fn finish_at(buf: &mut [u8], at: usize, asyncmap: u32, crc: u16) -> Result<usize, Full>
    ensures { Ran (finish_units asyncmap crc) buf.old at buf.new (reached result) (is_ok result) }
{
    let [low, high] = check_bytes(crc);
    let at = append_byte(buf, at, asyncmap, low)?;
    let at = append_byte(buf, at, asyncmap, high)?;
    append_one(buf, at, 0x7E)
}

impl FrameWriter {
    pub fn new() -> Self
        ensures { result ≡ fresh_writer 0xFFFF_FFFF }
    {
        FrameWriter::new_with_asyncmap(0xFFFF_FFFF)
    }

    pub fn new_with_asyncmap(asyncmap: u32) -> Self
        ensures { result ≡ fresh_writer asyncmap }
    {
        FrameWriter {
            len: 0,
            crc: 0,
            asyncmap,
        }
    }

    pub fn len(self) -> usize
        ensures { result ≡ self.len }
    {
        self.len
    }

    // Every unit fitted.
    fn wrote(self, len: usize, crc: u16) -> Wrote
        ensures { (outcome_number result.outcome ≡ 0) × (result.writer ≡ written true len crc crc self.asyncmap) }
    {
        Wrote {
            outcome: Ok(()),
            writer: FrameWriter { len, crc, ..self },
        }
    }

    // A unit did not fit: the check value is `crc` then.
    fn stopped(self, full: Full, crc: u16) -> Wrote
        ensures { (outcome_number result.outcome ≡ 1) × (result.writer ≡ written false full.at crc crc self.asyncmap) }
    {
        Wrote {
            outcome: Err(Refusal::BufferFull),
            writer: FrameWriter {
                len: full.at,
                crc,
                ..self
            },
        }
    }

    // The buffer is shorter than what was written to it: nothing changes.
    fn short(self) -> Wrote
        ensures { (outcome_number result.outcome ≡ 3) × (result.writer ≡ self) }
    {
        Wrote {
            outcome: Err(Refusal::BufferShort),
            writer: self,
        }
    }

    pub fn start(self, buf: &mut [u8]) -> Wrote
        ensures { Starts self buf.old result.outcome result.writer buf.new }
    {
        if buf.len() < self.len {
            return self.short();
        }
        match start_at(buf, self.len, self.asyncmap) {
            Ok(at) => self.wrote(at, STARTED),
            Err(full) => self.stopped(full, STARTED),
        }
    }

    pub fn append(self, buf: &mut [u8], src: &[u8]) -> Wrote
        ensures { Appends src.now self buf.old result.outcome result.writer buf.new }
    {
        if buf.len() < self.len {
            return self.short();
        }
        match walk(buf, self.len, self.asyncmap, self.crc, src) {
            Ok((at, crc)) => self.wrote(at, crc),
            Err(full) => self.stopped(full, self.crc),
        }
    }

    pub fn finish(self, buf: &mut [u8]) -> Wrote
        ensures { Finishes self buf.old result.outcome result.writer buf.new }
    {
        if buf.len() < self.len {
            return self.short();
        }
        match finish_at(buf, self.len, self.asyncmap, self.crc) {
            Ok(at) => self.wrote(at, self.crc),
            Err(stop) => self.stopped(stop, self.crc),
        }
    }
}
