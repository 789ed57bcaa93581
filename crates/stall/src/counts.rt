// What the calls answered since the start, as a row of a table.
ghost use Rattle.std.specs.Prelude.{◌<◌};

use outbox::refusal::Refusal;
use std::io;

// Packets accepted, sent, and read at the other end as they were made; how often the front passed the buffer's end; sends that had
// nothing to do; refusals by their column.
#[derive(Clone, Copy, Default)]
pub(crate) struct Counts {
    pub(crate) accepted: usize,
    sent: usize,
    same: usize,
    wraps: usize,
    idle: usize,
    refused: [usize; 4],
}

// The rows' columns, and last the step after which a row stands.
pub(crate) fn header(rt: &impl Print) -> io::Result<()> {
    rt.println(
        "accepted    sent    held    same   wraps    idle    no.3   no.14   no.15    no.1  after",
    )
}

// A place in `refused`, which the table prints in this order. The link gives no other refusal than number 1.
fn column(why: Refusal) -> usize
    ensures { result < 4 }
{
    match why {
        Refusal::BufferShort => 0,
        Refusal::PacketLength => 1,
        Refusal::NoRoom => 2,
        Refusal::Link(_) => 3,
    }
}

fn count(n: &mut usize, yes: bool) {
    *n = n.saturating_add(usize::from(yes));
}

impl Counts {
    pub(crate) fn take_refusal(&mut self, why: Refusal) {
        count(&mut self.refused[column(why)], true);
    }

    pub(crate) fn take_packet(&mut self) {
        count(&mut self.accepted, true);
    }

    // A `send` that had nothing to do.
    pub(crate) fn take_idle(&mut self) {
        count(&mut self.idle, true);
    }

    // A `send` that sent a frame.
    pub(crate) fn take_frame(&mut self, is_same: bool, is_wrap: bool) {
        count(&mut self.sent, true);
        count(&mut self.same, is_same);
        count(&mut self.wraps, is_wrap);
    }

    // The number of the packet that is sent next.
    pub(crate) fn next(&self) -> usize {
        self.sent
    }

    // Each column is eight places wide.
    pub(crate) fn show(&self, rt: &impl Print, held: usize, step: &str) -> io::Result<()> {
        let columns = [
            self.accepted,
            self.sent,
            held,
            self.same,
            self.wraps,
            self.idle,
        ];
        for n in columns.iter().chain(self.refused.iter()) {
            print!(rt; "{n:>8}")?;
        }
        println!(rt; "  {step}")
    }
}
