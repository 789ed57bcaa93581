// The reader's calls.
use crate::buffer::{Buffer, ROOM};
use crate::show::{Answer, Filled};
use framing::drops::Drops;
use framing::frame_reader::{FrameReader, Reading, Span, State};
use framing::refusal::Refusal;
use std::fmt::{self, Write};

// A reader, the buffer of which it is lent as much as it was made with, and what its last consume dropped.
#[derive(Drop)]
pub(crate) struct Reader {
    reader: FrameReader,
    room: usize,
    buf: Buffer<ROOM>,
    drops: Drops,
}

// What a reader keeps from call to call.
#[derive(Clone, Copy)]
pub(crate) struct Kept(pub(crate) FrameReader);

// The counts of a consume.
#[derive(Clone, Copy)]
pub(crate) struct Counts(pub(crate) Drops);

// What a consume took: a refusal takes nothing.
#[derive(Clone, Copy)]
pub(crate) struct Taken(pub(crate) Result<usize, u8>);

fn state_name(state: State) -> &'static str {
    match state {
        State::Start => "start",
        State::Address => "address",
        State::Data => "data",
        State::Complete => "complete",
    }
}

impl fmt::Display for Kept {
    fn fmt<W: fmt::Write>(&self, f: &mut fmt::Formatter<W>) -> fmt::Result {
        let FrameReader {
            state,
            escape,
            len,
            ..
        } = self.0;
        write!(
            f,
            "reader={} escape={} kept={len}",
            state_name(state),
            u8::from(escape)
        )
    }
}

impl fmt::Display for Counts {
    fn fmt<W: fmt::Write>(&self, f: &mut fmt::Formatter<W>) -> fmt::Result {
        let Drops {
            aborted,
            short,
            control,
            check,
            overrun,
        } = self.0;
        write!(f, "{aborted} {short} {control} {check} {overrun}")
    }
}

impl fmt::Display for Taken {
    fn fmt<W: fmt::Write>(&self, f: &mut fmt::Formatter<W>) -> fmt::Result {
        match self.0 {
            Ok(count) => write!(f, "ok {count}"),
            Err(refusal) => write!(f, "refuse {refusal} 0"),
        }
    }
}

fn show_got(got: Result<Option<Span>, Refusal>, out: &mut Answer) -> fmt::Result {
    match got {
        Ok(Some(packet)) => write!(out, "{}..{}", packet.start, packet.end),
        Ok(None) => write!(out, "none"),
        Err(refusal) => write!(out, "refuse {}", u8::from(refusal)),
    }
}

impl Reader {
    // A reader without room.
    pub(crate) fn new() -> Self {
        Reader {
            reader: FrameReader::new(Reading::Crate),
            room: 0,
            buf: Buffer::new(0),
            drops: Drops::none(),
        }
    }

    pub(crate) fn reset(&mut self) {
        self.reader = FrameReader::new(Reading::Crate);
        self.room = 0;
        self.drops = Drops::none();
    }

    pub(crate) fn renew(
        &mut self,
        room: usize,
        reading: Reading,
        fill: u8,
        out: &mut Answer,
    ) -> fmt::Result {
        self.reader = FrameReader::new(reading);
        self.drops = Drops::none();
        self.room = room;
        self.buf.lend(room).fill(fill);
        out.write_str("rnew ok")
    }

    pub(crate) fn consume(&mut self, src: &[u8], fill: u8, out: &mut Answer) -> fmt::Result {
        let consumed = self.reader.consume(self.buf.lend(self.room), src);
        self.reader = consumed.reader;
        self.drops = consumed.drops;
        let taken = Taken(consumed.taken.map_err(u8::from));
        let bytes = self.buf.front(self.room);
        write!(
            out,
            "rconsume {taken} {} rx={}",
            Kept(self.reader),
            Filled { bytes, fill }
        )
    }

    pub(crate) fn receive(&mut self, out: &mut Answer) -> fmt::Result {
        let received = self.reader.receive();
        self.reader = received.reader;
        out.write_str("rreceive ")?;
        show_got(received.got, out)?;
        write!(out, " {}", Kept(self.reader))
    }

    pub(crate) fn drops(&self, out: &mut Answer) -> fmt::Result {
        write!(out, "rdrops {}", Counts(self.drops))
    }
}
