// Lines of the input.
use arrayvec::ArrayVec;
use std::io::{self, Read};

// As many characters may a line have.
pub(crate) const MAX_LINE: usize = 8400;

// Of a line that is too long, one character more than it may have is kept.
const KEPT: usize = MAX_LINE + 1;

// What has arrived and is not used yet lies in `chunk` from `from` up to `to`: no more than was read. The end of the input ends a line as well, and is asked for once.
#[derive(Drop)]
pub(crate) struct Lines {
    chunk: [u8; 4096],
    from: usize,
    to: usize,
    line: ArrayVec<u8, KEPT>,
    is_over: bool,
}

impl Lines {
    pub(crate) fn new() -> Self {
        Lines {
            chunk: [0; 4096],
            from: 0,
            to: 0,
            line: ArrayVec::new(),
            is_over: false,
        }
    }

    // The line without its line feed.
    pub(crate) fn line(&self) -> &[u8] {
        self.line.as_slice()
    }

    // Takes bytes up to a line feed, or all, and answers whether one was met.
    fn gather(&mut self) -> bool {
        let rest = self.chunk.get(self.from..self.to).unwrap_or(&[]);
        let end = rest.iter().position(|&b| b == b'\n');
        let part = &rest[..end.unwrap_or(rest.len())];
        let room = self.line.remaining_capacity().min(part.len());
        let _ = self.line.try_extend_from_slice(&part[..room]);
        self.from = match end {
            Some(end) => self.from.saturating_add(end + 1),
            None => self.to,
        };
        end.is_some()
    }

    // Reads the next line, and answers whether there was one.
    pub(crate) fn advance<R: Read>(&mut self, input: &mut R) -> io::Result<bool> {
        self.line.clear();
        for _ in 0..u64::MAX {
            if self.gather() {
                return Ok(true);
            }
            if self.is_over {
                return Ok(!self.line.is_empty());
            }
            self.from = 0;
            self.to = input.read(&mut self.chunk)?;
            self.is_over = self.to == 0;
        }
        Ok(false)
    }
}
