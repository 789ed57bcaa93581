// How values are shown in an answer.
use crate::waiting::WIDE_ROOM;
use arrayvec::ArrayString;
use std::fmt::{self, Write};
use std::str;

// The outbox's whole buffer in digits, and the words beside it: no answer is longer.
const LONGEST: usize = 2 * WIDE_ROOM + 100;

// An answer as it is made.
pub(crate) type Answer = ArrayString<LONGEST>;

// A call that has no count; of a type of its own beside Counted and Taken, since each is another text.
#[derive(Clone, Copy)]
pub(crate) struct Verdict(pub(crate) Result<(), u8>);

// A call that has one where it isn't refused.
#[derive(Clone, Copy)]
pub(crate) struct Counted(pub(crate) Result<usize, u8>);

const DIGITS: &[u8; 16] = b"0123456789abcdef";

// So many bytes are shown at a time.
const RUN: usize = 64;

// Bytes in hex, or `-` for none.
#[derive(Clone, Copy)]
pub(crate) struct Hex<'a>(pub(crate) &'a [u8]);

// A lent buffer, with the fill bytes at its end as their count.
#[derive(Clone, Copy)]
pub(crate) struct Filled<'a> {
    pub(crate) bytes: &'a [u8],
    pub(crate) fill: u8,
}

impl fmt::Display for Verdict {
    fn fmt<W: Write>(&self, f: &mut fmt::Formatter<W>) -> fmt::Result {
        match self.0 {
            Ok(()) => f.write_str("ok"),
            Err(refusal) => write!(f, "refuse {refusal}"),
        }
    }
}

impl fmt::Display for Counted {
    fn fmt<W: Write>(&self, f: &mut fmt::Formatter<W>) -> fmt::Result {
        match self.0 {
            Ok(count) => write!(f, "ok {count}"),
            Err(refusal) => write!(f, "refuse {refusal}"),
        }
    }
}

impl<'a> fmt::Display for Hex<'a> {
    fn fmt<W: Write>(&self, f: &mut fmt::Formatter<W>) -> fmt::Result {
        if self.0.is_empty() {
            return f.write_str("-");
        }
        // A run of digits at a time: one by one an answer takes four times as long.
        for part in self.0.chunks(RUN) {
            let mut digits = [0u8; 2 * RUN];
            for (pair, byte) in digits.chunks_exact_mut(2).zip(part) {
                pair[0] = DIGITS[usize::from(byte / 16)];
                pair[1] = DIGITS[usize::from(byte % 16)];
            }
            let run = &digits[..2 * part.len().min(RUN)];
            f.write_str(str::from_utf8(run).unwrap_or(""))?;
        }
        Ok(())
    }
}

impl<'a> fmt::Display for Filled<'a> {
    fn fmt<W: Write>(&self, f: &mut fmt::Formatter<W>) -> fmt::Result {
        let last = self.bytes.iter().rposition(|b| *b != self.fill);
        let kept = &self.bytes[..last.map_or(0, |last| last + 1)];
        let left_out = self.bytes.len() - kept.len();
        write!(f, "{}+{left_out}", Hex(kept))
    }
}
