// A buffer that is lent in part, and keeps its bytes from call to call.
use crate::show::Filled;

// How long each buffer is but the outbox's.
pub(crate) const ROOM: usize = 4096;

#[derive(Drop)]
pub(crate) struct Buffer<const N: usize> {
    bytes: [u8; N],
    fill: u8,
}

impl<const N: usize> Buffer<N> {
    pub(crate) fn new(fill: u8) -> Self {
        Buffer {
            bytes: [fill; N],
            fill,
        }
    }

    pub(crate) fn fill(&self) -> u8 {
        self.fill
    }

    pub(crate) fn fill_with(&mut self, fill: u8) {
        self.fill = fill;
        self.bytes.fill(fill);
    }

    // The first `n` bytes, or all where there are fewer.
    pub(crate) fn front(&self, n: usize) -> &[u8] {
        &self.bytes[..n.min(N)]
    }

    pub(crate) fn lend(&mut self, n: usize) -> &mut [u8] {
        &mut self.bytes[..n.min(N)]
    }

    pub(crate) fn shown(&self, n: usize) -> Filled<'_> {
        Filled {
            bytes: self.front(n),
            fill: self.fill,
        }
    }
}
