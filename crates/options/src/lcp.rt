// The link control protocol's options (RFC 1661, and RFC 1662 for the map).
ghost use Rattle.std.specs.Prelude.{◌≡◌};
ghost use Rattle.options.specs.Wire.{pkt_of};
ghost use Rattle.options.specs.Lcp.{fresh_lcp, start_lcp, suggestion_lcp, judge_lcp, own_lcp, lcp_nacked};

use crate::proto::{Judged, Verdict};
use crate::wire::{Packet, be};

#[derive(Clone, Copy, PartialEq, Eq)]
pub enum AuthType {
    None,
    Pap,
}

// The own map and whether it was dropped, as in IpOption: no Option, since a dropped value stays, and `original` and replay name both.
#[derive(Clone, Copy, PartialEq, Eq)]
pub struct Lcp {
    pub auth: AuthType,
    pub asyncmap_remote: u32,
    pub asyncmap: u32,
    pub asyncmap_rej: bool,
}

// Numbers, as in wire.rs: an option may have any.
const ASYNCMAP: u8 = 2;

const AUTH: u8 = 3;

impl Lcp {
    pub fn new() -> Self
        ensures { result ≡ fresh_lcp }
    {
        Lcp {
            auth: AuthType::None,
            asyncmap_remote: 0xFFFF_FFFF,
            asyncmap: 0,
            asyncmap_rej: false,
        }
    }

    pub(crate) fn peer_options_start(mut self) -> Self
        ensures { result ≡ start_lcp self }
    {
        self.auth = AuthType::None;
        self
    }

    // What is suggested where an authentication protocol is not PAP.
    pub(crate) fn suggestion(self) -> &'static [u8]
        ensures { result.now ≡ suggestion_lcp self }
    {
        &[0xC0, 0x23]
    }

    pub(crate) fn peer_option_received(self, code: u8, d: &[u8]) -> Judged<Self>
        ensures { result ≡ judge_lcp self code d.now }
    {
        match code {
            ASYNCMAP if d.len() == 4 => Judged {
                verdict: Verdict::Ack,
                proto: Lcp {
                    asyncmap_remote: be(d),
                    ..self
                },
            },
            AUTH if d == self.suggestion() => Judged {
                verdict: Verdict::Ack,
                proto: Lcp {
                    auth: AuthType::Pap,
                    ..self
                },
            },
            AUTH => Judged {
                verdict: Verdict::Nack,
                proto: self,
            },
            _ => Judged {
                verdict: Verdict::Rej,
                proto: self,
            },
        }
    }

    // The own options, as they stand in a request.
    pub(crate) fn own_options(self) -> Packet
        ensures { result ≡ pkt_of (own_lcp self) }
    {
        Packet::blank().push_field(self.asyncmap_rej, ASYNCMAP, self.asyncmap)
    }

    pub(crate) fn own_option_nacked(self, code: u8, d: &[u8], is_rej: bool) -> Self
        ensures { result ≡ lcp_nacked self code d.now is_rej }
    {
        if code != ASYNCMAP {
            return self;
        }
        if !is_rej && d.len() == 4 {
            return Lcp {
                asyncmap: be(d),
                ..self
            };
        }
        Lcp {
            asyncmap_rej: true,
            ..self
        }
    }
}
