// The writer's calls.
use crate::buffer::{Buffer, ROOM};
use crate::show::{Answer, Filled, Verdict};
use framing::frame_writer::{FrameWriter, Wrote};
use std::fmt::{self, Write};

// A writer, and the buffer of which it is lent as much as it was made with.
#[derive(Drop)]
pub(crate) struct Writer {
    writer: FrameWriter,
    room: usize,
    buf: Buffer<ROOM>,
}

impl Writer {
    // A writer without room.
    pub(crate) fn new() -> Self {
        Writer {
            writer: FrameWriter::new(),
            room: 0,
            buf: Buffer::new(0),
        }
    }

    pub(crate) fn reset(&mut self) {
        self.writer = FrameWriter::new();
        self.room = 0;
    }

    pub(crate) fn renew(
        &mut self,
        room: usize,
        map: u32,
        fill: u8,
        out: &mut Answer,
    ) -> fmt::Result {
        self.writer = FrameWriter::new_with_asyncmap(map);
        self.room = room;
        self.buf.lend(room).fill(fill);
        out.write_str("wnew ok")
    }

    // What a call answers, where it leaves the writer as `wrote` has it.
    fn left(&mut self, name: &str, wrote: Wrote, fill: u8, out: &mut Answer) -> fmt::Result {
        self.writer = wrote.writer;
        let FrameWriter { len, crc, .. } = self.writer;
        let said = Verdict(wrote.outcome.map_err(u8::from));
        let bytes = self.buf.front(self.room);
        write!(
            out,
            "{name} {said} len={len} crc={crc:04x} buf={}",
            Filled { bytes, fill }
        )
    }

    pub(crate) fn start(&mut self, fill: u8, out: &mut Answer) -> fmt::Result {
        let wrote = self.writer.start(self.buf.lend(self.room));
        self.left("wstart", wrote, fill, out)
    }

    pub(crate) fn append(&mut self, src: &[u8], fill: u8, out: &mut Answer) -> fmt::Result {
        let wrote = self.writer.append(self.buf.lend(self.room), src);
        self.left("wappend", wrote, fill, out)
    }

    pub(crate) fn finish(&mut self, fill: u8, out: &mut Answer) -> fmt::Result {
        let wrote = self.writer.finish(self.buf.lend(self.room));
        self.left("wfinish", wrote, fill, out)
    }
}
