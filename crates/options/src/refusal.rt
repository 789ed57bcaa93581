// Why a call is refused, a variant for each cause; `number_of` in specs/Refusal.antt has the numbers.
ghost use Rattle.std.specs.Prelude.{◌≡◌};
ghost use Rattle.options.specs.Refusal.{number_of};

#[derive(Clone, Copy, PartialEq, Eq)]
pub enum Refusal {
    // `open` in a phase that is not Dead.
    NotDead,
    // Name and password have more than 120 bytes together.
    CredentialsLong,
    // A packet with no whole protocol number.
    PacketShort,
    // A configure packet whose Length leaves no room for its own header.
    ConfigureShort,
    // An echo with Length 0.
    EchoEmpty,
    // A PAP packet that runs past its end.
    PapPast,
    // An option that is cut short, with its offset from the first option byte.
    OptionCut(usize),
    // A listed option with more than four data bytes.
    OptionLong,
    // A seventh listed option.
    OptionsMany,
    // A reply packet above 128 bytes.
    ReplyLong,
}

impl From<Refusal> for u8 {
    ghost from_gives = { λ r n. n ≡ number_of r };

    fn from(r: Refusal) -> Self {
        match r {
            Refusal::NotDead => 2,
            Refusal::CredentialsLong => 4,
            Refusal::PacketShort => 5,
            Refusal::ConfigureShort => 11,
            Refusal::EchoEmpty => 12,
            Refusal::PapPast => 13,
            Refusal::OptionCut(_) => 7,
            Refusal::OptionLong => 8,
            Refusal::OptionsMany => 9,
            Refusal::ReplyLong => 10,
        }
    }
}
