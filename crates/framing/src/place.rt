// The reader as a record updated in place, thin over the core that goes by value.
ghost use Rattle.std.specs.Prelude.{◌≡◌};
ghost use Rattle.framing.specs.Reader.{held, Consumes, Receives};
ghost use Rattle.framing.specs.Drops.{dropped};

use crate::drops::Drops;
use crate::frame_reader::{Consumed, FrameReader, Received, Span};
use crate::refusal::Refusal;

#[derive(Clone, Copy)]
pub struct Took {
    pub taken: Result<usize, Refusal>,
    pub drops: Drops,
}

impl FrameReader {
    pub fn feed(&mut self, buf: &mut [u8], src: &[u8]) -> Took
        ensures consumes { Consumes (held self.old buf.old) src.now result.taken self.new buf.new }
        ensures drops_value { result.drops ≡ dropped (held self.old buf.old) src.now }
    {
        let Consumed {
            taken,
            reader,
            drops,
        } = self.consume(buf, src);
        *self = reader;
        Took { taken, drops }
    }

    pub fn fetch(&mut self) -> Result<Option<Span>, Refusal>
        ensures { Receives self.old result self.new }
    {
        let Received { got, reader } = self.receive();
        *self = reader;
        got
    }
}
