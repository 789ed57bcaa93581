// What stands from line to line, and the answer of each call.
use crate::call::{Call, Side, parse};
use crate::pppos::Uplink;
use crate::reader::Reader;
use crate::show::Answer;
use crate::waiting::Waiting;
use crate::words::Bad;
use crate::writer::Writer;
use framing::crc::crc16;
use std::fmt::{self, Write};

#[derive(Drop)]
pub(crate) struct Bench {
    uplink: Uplink,
    writer: Writer,
    reader: Reader,
    waiting: Waiting,
}

impl Bench {
    pub(crate) fn new() -> Self {
        Bench {
            uplink: Uplink::new(),
            writer: Writer::new(),
            reader: Reader::new(),
            waiting: Waiting::new(),
        }
    }

    fn reset(&mut self, out: &mut Answer) -> fmt::Result {
        self.uplink.reset();
        self.writer.reset();
        self.reader.reset();
        self.waiting.reset();
        out.write_str("reset ok")
    }

    fn fill(&mut self, side: Side, byte: u8, out: &mut Answer) -> fmt::Result {
        match side {
            Side::Rx => self.uplink.rx.fill_with(byte),
            Side::Tx => self.uplink.tx.fill_with(byte),
        }
        out.write_str("fill ok")
    }

    fn answer(&mut self, call: Call, out: &mut Answer) -> fmt::Result {
        let tx_fill = self.uplink.tx.fill();
        let rx_fill = self.uplink.rx.fill();
        match call {
            Call::Reset => self.reset(out),
            Call::Fill(side, byte) => self.fill(side, byte, out),
            Call::Crc(seed, bytes) => write!(out, "crc {:04x}", crc16(seed, bytes)),
            Call::WriterNew(room, map) => self.writer.renew(room, map, tx_fill, out),
            Call::WriterStart => self.writer.start(tx_fill, out),
            Call::WriterAppend(src) => self.writer.append(src, tx_fill, out),
            Call::WriterFinish => self.writer.finish(tx_fill, out),
            Call::ReaderNew(room, reading) => self.reader.renew(room, reading, rx_fill, out),
            Call::ReaderConsume(src) => self.reader.consume(src, rx_fill, out),
            Call::ReaderReceive => self.reader.receive(out),
            Call::ReaderDrops => self.reader.drops(out),
            Call::New(name, pass, reading) => self.uplink.renew(name, pass, reading, out),
            Call::Open => self.uplink.open(out),
            Call::Consume(room, src) => self.uplink.consume(room, src, out),
            Call::Poll(tx_room, rx_room) => self.uplink.poll(tx_room, rx_room, out),
            Call::Send(room, pkt) => self.uplink.send(room, pkt, out),
            Call::Part(from, to, room) => self.uplink.part(from, to, room, out),
            Call::Status => self.uplink.status(out),
            Call::Dump => self.uplink.dump(out),
            Call::Drops => self.uplink.drops(out),
            Call::OutboxNew(size) => self.waiting.renew(size, out),
            Call::OutboxAccept(room, pkt) => self.waiting.accept(room, pkt, out),
            Call::OutboxSend(room, tx_room) => {
                self.waiting.send(&mut self.uplink, room, tx_room, out)
            }
            Call::OutboxBuffer(room) => self.waiting.buffer(room, out),
        }
    }

    // The answer of a line with its line feed, or nothing where the line has no call.
    pub(crate) fn answer_line(
        &mut self,
        line: &[u8],
        scratch: &mut [u8],
        out: &mut Answer,
    ) -> fmt::Result {
        match parse(line, scratch) {
            Ok(None) => return Ok(()),
            Ok(Some(call)) => self.answer(call, out)?,
            Err(Bad) => out.write_str("bad")?,
        }
        out.write_char('\n')
    }
}
