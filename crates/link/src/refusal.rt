// Why a call on the link is refused: a cause of framing's or of options', or one of the link's own.
ghost use Rattle.std.specs.Prelude.{◌≡◌};
ghost use Rattle.link.specs.Refusal.{number_of};

#[derive(Clone, Copy, PartialEq, Eq)]
pub enum Refusal {
    Framing(framing::refusal::Refusal),
    Negotiation(options::refusal::Refusal),
    // The frames of a poll do not fit into the transmit buffer.
    FramesFull,
}

impl From<Refusal> for u8 {
    ghost from_gives = { λ r n. n ≡ number_of r };

    fn from(r: Refusal) -> Self {
        match r {
            Refusal::Framing(f) => u8::from(f),
            Refusal::Negotiation(n) => u8::from(n),
            Refusal::FramesFull => 1,
        }
    }
}
