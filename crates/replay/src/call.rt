// What a line asks for.
use crate::line::MAX_LINE;
use crate::words::{Bad, Words};
use framing::frame_reader::Reading;

// As many bytes may the words of a line spell.
pub(crate) const MAX_BYTES: usize = MAX_LINE / 2;

// The buffer for receiving or the one for sending.
#[derive(Clone, Copy, PartialEq, Eq)]
pub(crate) enum Side {
    Rx,
    Tx,
}

// The calls, with the values of their words in the order of the line.
#[derive(Clone, Copy)]
pub(crate) enum Call<'a> {
    Reset,
    Fill(Side, u8),
    Crc(u16, &'a [u8]),
    WriterNew(usize, u32),
    WriterStart,
    WriterAppend(&'a [u8]),
    WriterFinish,
    ReaderNew(usize, Reading),
    ReaderConsume(&'a [u8]),
    ReaderReceive,
    ReaderDrops,
    New(&'a [u8], &'a [u8], Reading),
    Open,
    Consume(usize, &'a [u8]),
    Poll(usize, usize),
    Send(usize, &'a [u8]),
    Part(usize, usize, usize),
    Status,
    Dump,
    Drops,
    OutboxNew(usize),
    OutboxAccept(usize, &'a [u8]),
    OutboxSend(usize, usize),
    OutboxBuffer(usize),
}

fn named_side(words: &mut Words) -> Result<Side, Bad> {
    match words.next() {
        Some(b"rx") => Ok(Side::Rx),
        Some(b"tx") => Ok(Side::Tx),
        _ => Err(Bad),
    }
}

// Bytes of the call lie in `scratch`.
fn named_call<'a>(
    name: &[u8],
    words: &mut Words<'_>,
    scratch: &'a mut [u8],
) -> Result<Call<'a>, Bad> {
    Ok(match name {
        b"reset" => Call::Reset,
        b"fill" => Call::Fill(named_side(words)?, words.byte()?),
        b"crc" => Call::Crc(words.seed()?, words.bytes(scratch)?.0),
        b"wnew" => Call::WriterNew(words.room()?, words.map()?),
        b"wstart" => Call::WriterStart,
        b"wappend" => Call::WriterAppend(words.bytes(scratch)?.0),
        b"wfinish" => Call::WriterFinish,
        b"rnew" => Call::ReaderNew(words.room()?, words.reading()?),
        b"rconsume" => Call::ReaderConsume(words.bytes(scratch)?.0),
        b"rreceive" => Call::ReaderReceive,
        b"rdrops" => Call::ReaderDrops,
        b"new" => {
            let (name, rest) = words.bytes(scratch)?;
            let (pass, _) = words.bytes(rest)?;
            Call::New(name, pass, words.reading()?)
        }
        b"open" => Call::Open,
        b"consume" => Call::Consume(words.room()?, words.bytes(scratch)?.0),
        b"poll" => Call::Poll(words.room()?, words.room()?),
        b"send" => Call::Send(words.room()?, words.bytes(scratch)?.0),
        b"part" => Call::Part(words.room()?, words.room()?, words.room()?),
        b"status" => Call::Status,
        b"dump" => Call::Dump,
        b"drops" => Call::Drops,
        b"obnew" => Call::OutboxNew(words.wide_room()?),
        b"obaccept" => Call::OutboxAccept(words.wide_room()?, words.bytes(scratch)?.0),
        b"obsend" => Call::OutboxSend(words.wide_room()?, words.room()?),
        b"obbuf" => Call::OutboxBuffer(words.wide_room()?),
        _ => return Err(Bad),
    })
}

// The call of a line, with its bytes in `scratch`; an empty line and a comment have none.
pub(crate) fn parse<'a>(line: &[u8], scratch: &'a mut [u8]) -> Result<Option<Call<'a>>, Bad> {
    if line.len() > MAX_LINE {
        return Err(Bad);
    }
    let mut words = Words(line);
    let Some(name) = words.next() else {
        return Ok(None);
    };
    if name.first() == Some(&b'#') {
        return Ok(None);
    }
    let call = named_call(name, &mut words, scratch)?;
    words.end()?;
    Ok(Some(call))
}
