// The frame reader: its state by value, the buffer lent to each call.
ghost use Rattle.std.specs.Prelude.{◌≡◌, ◌==◌, cond, ◌≤◌, length};
ghost use Rattle.framing.specs.Reader.{fresh_reader, moved, marks, plain_of, escape_after, len_after, aborts, fault_of, ended, held, stored, in_data, step, Consumes, Receives};
ghost use Rattle.framing.specs.Drops.{room_fault, fault_in_data, fault_at, dropped};

use crate::crc::crc16;
use crate::drops::{Drops, Fault};
use crate::refusal::Refusal;

#[derive(Clone, Copy, PartialEq, Eq)]
pub enum State {
    Start,
    Address,
    Data,
    Complete,
}

// How bad frames and escapes are read: as the crate does, or as RFC 1662 says.
#[derive(Clone, Copy, PartialEq, Eq)]
pub enum Reading {
    Crate,
    Standard,
}

#[derive(Clone, Copy, PartialEq, Eq)]
pub struct FrameReader {
    pub state: State,
    pub escape: bool,
    pub len: usize,
    pub reading: Reading,
}

// How many bytes were taken, what the reader is then, and what it dropped.
#[derive(Clone, Copy)]
pub struct Consumed {
    pub taken: Result<usize, Refusal>,
    pub reader: FrameReader,
    pub drops: Drops,
}

// What a byte comes to: the reader, and what it dropped.
#[derive(Clone, Copy)]
struct Stepped {
    reader: FrameReader,
    fault: Option<Fault>,
}

// A range of the lent buffer; no `Range`, which is not Copy as the answers of a fetch are.
#[derive(Clone, Copy, PartialEq, Eq)]
pub struct Span {
    pub start: usize,
    pub end: usize,
}

// Where the packet lies, if a frame is complete.
#[derive(Clone, Copy, PartialEq, Eq)]
pub struct Received {
    pub got: Result<Option<Span>, Refusal>,
    pub reader: FrameReader,
}

// Outside a frame: a flag may begin one.
fn sought(b: u8) -> State
    ensures { result ≡ cond (b == 0x7E) State.Address State.Start }
{
    if b == 0x7E {
        State::Address
    } else {
        State::Start
    }
}

impl FrameReader {
    pub fn new(reading: Reading) -> Self
        ensures { result ≡ fresh_reader reading }
    {
        FrameReader {
            state: State::Start,
            escape: false,
            len: 0,
            reading,
        }
    }

    // Nothing is dropped.
    fn keeps(self) -> Stepped
        ensures { (result.reader ≡ self) × (result.fault ≡ None) }
    {
        Stepped {
            reader: self,
            fault: None,
        }
    }

    // Between frames.
    fn to(self, state: State) -> Stepped
        ensures { (result.reader ≡ moved self state) × (result.fault ≡ None) }
    {
        FrameReader { state, ..self }.keeps()
    }

    // Whether this byte of a frame is an escape.
    fn marks(self, b: u8) -> bool
        ensures { result ≡ marks self b }
    {
        b == 0x7D && (!self.escape || self.reading == Reading::Crate)
    }

    fn plain(self, b: u8) -> u8
        ensures { result ≡ plain_of self b }
    {
        if self.escape { b ^ 0x20 } else { b }
    }

    // In crate reading a pending escape outlives a frame's end.
    fn escape_after(self) -> bool
        ensures { result ≡ escape_after self }
    {
        self.escape && self.reading == Reading::Crate
    }

    // In crate reading the bytes of a bad frame stay.
    fn len_after(self) -> usize
        ensures { result ≡ len_after self }
    {
        match self.reading {
            Reading::Crate => self.len,
            Reading::Standard => 0,
        }
    }

    // In standard reading an escape that is pending at a frame's end aborts the frame.
    fn aborts(self) -> bool
        ensures { result ≡ aborts self }
    {
        self.escape && self.reading != Reading::Crate
    }

    // What is wrong with the frame that ends here; the check value is worked out last.
    fn fault(self, buf: &[u8]) -> Option<Fault>
        ensures { result ≡ fault_of self buf.now }
    {
        if self.aborts() {
            return Some(Fault::Aborted);
        }
        let kept = &buf[..self.len.min(buf.len())];
        if kept.len() < 3 {
            return Some(Fault::Short);
        }
        if kept[0] != 0x03 {
            return Some(Fault::Control);
        }
        if crc16(0x00FF, kept) != 0xF0B8 {
            return Some(Fault::Check);
        }
        None
    }

    // 7E inside a frame ends it; what becomes of the frame and what is counted come from one fault.
    fn end(self, buf: &[u8]) -> Stepped
        ensures { (result.reader ≡ ended self buf.now) × (result.fault ≡ fault_of self buf.now) }
    {
        let escape = self.escape_after();
        let fault = self.fault(buf);
        if fault.is_none() {
            let reader = FrameReader {
                state: State::Complete,
                escape,
                ..self
            };
            return Stepped { reader, fault };
        }
        let reader = FrameReader {
            state: State::Address,
            escape,
            len: self.len_after(),
            ..self
        };
        Stepped { reader, fault }
    }

    fn store(self, buf: &mut [u8], b: u8) -> Stepped
        ensures { (held result.reader buf.new ≡ stored (held self buf.old) b) × (result.fault ≡ room_fault (held self buf.old)) }
    {
        if self.len < buf.len() {
            buf[self.len] = b;
            let longer = FrameReader {
                state: State::Data,
                escape: false,
                len: self.len + 1,
                ..self
            };
            return longer.keeps();
        }
        Stepped {
            reader: FrameReader::new(self.reading),
            fault: Some(Fault::Overrun),
        }
    }

    // A byte inside a frame.
    fn data(self, buf: &mut [u8], b: u8) -> Stepped
        ensures { (held result.reader buf.new ≡ in_data (held self buf.old) b) × (result.fault ≡ fault_in_data (held self buf.old) b) }
    {
        if b == 0x7E {
            return self.end(buf);
        }
        if self.marks(b) {
            let escaped = FrameReader {
                state: State::Data,
                escape: true,
                ..self
            };
            return escaped.keeps();
        }
        self.store(buf, self.plain(b))
    }

    fn step(self, buf: &mut [u8], b: u8) -> Stepped
        ensures { (held result.reader buf.new ≡ step (held self buf.old) b) × (result.fault ≡ fault_at (held self buf.old) b) }
    {
        match self.state {
            State::Start => self.to(sought(b)),
            State::Address if b == 0xFF => self.to(State::Data),
            State::Address => self.to(sought(b)),
            State::Data => self.data(buf, b),
            State::Complete => self.keeps(),
        }
    }

    // Feeds bytes, up to the end of a good frame: what stands behind those taken is to be handed in again, after `receive`.
    pub fn consume(self, buf: &mut [u8], src: &[u8]) -> Consumed
        ensures consumes { Consumes (held self buf.old) src.now result.taken result.reader buf.new }
        ensures drops_value { result.drops ≡ dropped (held self buf.old) src.now }
    {
        let mut reader = self;
        let mut drops = Drops::none();
        if buf.len() < self.len {
            return Consumed {
                taken: Err(Refusal::BufferShort),
                reader,
                drops,
            };
        }
        for (i, &b) in src.iter().enumerate() {
            if reader.state == State::Complete {
                return Consumed {
                    taken: Ok(i),
                    reader,
                    drops,
                };
            }
            let stepped = reader.step(buf, b);
            reader = stepped.reader;
            drops = drops.noted(stepped.fault);
        }
        Consumed {
            taken: Ok(src.len()),
            reader,
            drops,
        }
    }

    // The packet of a good frame, once.
    pub fn receive(self) -> Received
        ensures { Receives self result.got result.reader }
    {
        if self.state != State::Complete {
            return Received {
                got: Ok(None),
                reader: self,
            };
        }
        let reader = FrameReader {
            state: State::Address,
            len: 0,
            ..self
        };
        if self.len < 3 {
            return Received {
                got: Err(Refusal::FrameShort),
                reader,
            };
        }
        let packet = Span {
            start: 1,
            end: self.len - 2,
        };
        Received {
            got: Ok(Some(packet)),
            reader,
        }
    }
}
