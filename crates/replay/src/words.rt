// The words of a line, and the values that they spell.
ghost use Rattle.std.specs.Prelude.{◌≤◌};

use crate::buffer::ROOM;
use crate::waiting::WIDE_ROOM;
use framing::frame_reader::Reading;
use std::str;

// No call has the form of the line.
#[derive(Clone, Copy, Debug, PartialEq, Eq)]
pub(crate) struct Bad;

// What is left of a line.
#[derive(Clone, Copy)]
pub(crate) struct Words<'a>(pub(crate) &'a [u8]);

fn is_blank(b: &u8) -> bool {
    matches!(b, b' ' | b'\t' | b'\r')
}

impl<'a> Iterator for Words<'a> {
    type Item = &'a [u8];

    fn next(&mut self) -> Option<&'a [u8]> {
        let from = self.0.iter().position(|b| !is_blank(b))?;
        let rest = &self.0[from..];
        let to = rest.iter().position(is_blank).unwrap_or(rest.len());
        let (word, rest) = rest.split_at(to);
        self.0 = rest;
        Some(word)
    }
}

fn number(word: &[u8], radix: u32) -> Result<u32, Bad>
    requires least { 2 ≤ radix }
    requires most { radix ≤ 36 }
{
    // A sign, which the library takes, is no digit here.
    if word.first() == Some(&b'+') {
        return Err(Bad);
    }
    let text = str::from_utf8(word).map_err(|_| Bad)?;
    u32::from_str_radix(text, radix).map_err(|_| Bad)
}

impl<'a> Words<'a> {
    fn word(&mut self) -> Result<&'a [u8], Bad> {
        self.next().ok_or(Bad)
    }

    fn decimal(&mut self, most: usize) -> Result<usize, Bad> {
        match number(self.word()?, 10)? as usize {
            n if n <= most => Ok(n),
            _ => Err(Bad),
        }
    }

    fn hex(&mut self, least: usize, most: usize) -> Result<u32, Bad> {
        let word = self.word()?;
        if word.len() < least || most < word.len() {
            return Err(Bad);
        }
        number(word, 16)
    }

    // A length in one of the buffers but the outbox's.
    pub(crate) fn room(&mut self) -> Result<usize, Bad> {
        self.decimal(ROOM)
    }

    // A length in the outbox's buffer.
    pub(crate) fn wide_room(&mut self) -> Result<usize, Bad> {
        self.decimal(WIDE_ROOM)
    }

    pub(crate) fn byte(&mut self) -> Result<u8, Bad> {
        u8::try_from(self.hex(2, 2)?).map_err(|_| Bad)
    }

    pub(crate) fn seed(&mut self) -> Result<u16, Bad> {
        u16::try_from(self.hex(1, 4)?).map_err(|_| Bad)
    }

    pub(crate) fn map(&mut self) -> Result<u32, Bad> {
        self.hex(1, 8)
    }

    // Two digits for each byte, or `-` for none: the bytes at the front of `scratch`, and what is left of it.
    pub(crate) fn bytes<'r>(
        &mut self,
        scratch: &'r mut [u8],
    ) -> Result<(&'r [u8], &'r mut [u8]), Bad> {
        let word = self.word()?;
        if word == b"-".as_slice() {
            return Ok((&[], scratch));
        }
        let n = (word.len() / 2).min(scratch.len());
        let (bytes, rest) = scratch.split_at_mut(n);
        hex::decode_to_slice(word, bytes).map_err(|_| Bad)?;
        Ok((bytes, rest))
    }

    pub(crate) fn reading(&mut self) -> Result<Reading, Bad> {
        match self.next() {
            None => Ok(Reading::Crate),
            Some(b"standard") => Ok(Reading::Standard),
            Some(_) => Err(Bad),
        }
    }

    // A further word makes a line a bad one.
    pub(crate) fn end(&mut self) -> Result<(), Bad> {
        match self.next() {
            None => Ok(()),
            Some(_) => Err(Bad),
        }
    }
}
