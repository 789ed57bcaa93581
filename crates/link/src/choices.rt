// What is chosen when a link is made. Each choice is kept by the part of the link that acts on it; `PPPoS::choices` reads them off.
ghost use Rattle.std.specs.Prelude.{◌≡◌};
ghost use Rattle.link.specs.Choices.{plain_in};

use framing::frame_reader::Reading;

#[derive(Clone, Copy, PartialEq, Eq)]
pub struct Choices {
    pub reading: Reading,
}

impl Choices {
    // The plain choices, with this reading of bad frames.
    pub fn plain(reading: Reading) -> Self
        ensures { result ≡ plain_in reading }
    {
        Choices { reading }
    }
}
