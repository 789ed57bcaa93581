// A link and the buffers that it is lent: `TX` bytes to transmit from, and 1,600 to receive into.
ghost use Rattle.std.specs.Prelude.{◌≡◌, []};
ghost use Rattle.feeding.specs.Feed.{fed_link};
ghost use Rattle.link.specs.Link.{new_link};
ghost use Rattle.link.specs.Choices.{plain_in};
ghost use Rattle.serial.specs.Line.{begun, heard};

use feeding::feed::{feed, start};
use framing::frame_reader::Reading;
use link::choices::Choices;
use link::pppos::PPPoS;

const RX: usize = 1600;

#[derive(Clone, Copy)]
pub struct Line<const TX: usize> {
    pub link: PPPoS,
    pub tx: [u8; TX],
    pub rx: [u8; RX],
}

// A link with no name, no password and the plain choices, which nobody has opened.
pub fn unopened() -> PPPoS
    ensures { result ≡ new_link [] [] (plain_in Reading.Crate) }
{
    PPPoS::new(b"", b"", Choices::plain(Reading::Crate)).link
}

impl<const TX: usize> Line<TX> {
    // A fresh link with the plain choices, opened and polled once.
    pub fn start() -> Self
        ensures link { result.link ≡ (begun TX).link }
        ensures transmit { result.tx ≡ (begun TX).tx }
        ensures receive { result.rx ≡ (begun TX).rx }
    {
        let mut tx = [0u8; TX];
        let mut rx = [0u8; RX];
        let link = start(Choices::plain(Reading::Crate), &mut tx, &mut rx).link;
        Line { link, tx, rx }
    }

    // Hands the link what a peer sent: replies are thrown away, refusals passed over.
    pub fn hear(&mut self, src: &[u8])
        ensures link { self.new.link ≡ (fed_link self.old.link self.old.tx self.old.rx src.now).link }
        ensures transmit { self.new.tx ≡ (fed_link self.old.link self.old.tx self.old.rx src.now).tx }
        ensures receive { self.new.rx ≡ (fed_link self.old.link self.old.tx self.old.rx src.now).rx }
    {
        self.link = feed(self.link, &mut self.tx, &mut self.rx, src).link;
    }

    // What a peer's bytes make of a fresh line.
    pub fn heard(src: &[u8]) -> Self
        ensures link { result.link ≡ (heard TX src.now).link }
        ensures transmit { result.tx ≡ (heard TX src.now).tx }
        ensures receive { result.rx ≡ (heard TX src.now).rx }
    {
        let mut line = Line::start();
        line.hear(src);
        line
    }
}
