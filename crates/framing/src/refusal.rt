// Why a call is refused, a variant for each cause; `number_of` in specs/Refusal.antt has the numbers.
ghost use Rattle.std.specs.Prelude.{◌≡◌};
ghost use Rattle.framing.specs.Refusal.{number_of};

#[derive(Clone, Copy, PartialEq, Eq)]
pub enum Refusal {
    // What is to be written, a unit of a frame or text, does not fit into the lent buffer.
    BufferFull,
    // The lent buffer is under the length that the state keeps for it.
    BufferShort,
    // A frame was complete with under three bytes kept: a record that no calls reach.
    FrameShort,
}

impl From<Refusal> for u8 {
    ghost from_gives = { λ r n. n ≡ number_of r };

    fn from(r: Refusal) -> u8 {
        match r {
            Refusal::BufferFull => 1,
            Refusal::BufferShort => 3,
            Refusal::FrameShort => 5,
        }
    }
}
