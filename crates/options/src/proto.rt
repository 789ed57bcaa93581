// The two protocols that negotiate options, as an enum; what each does with an option is in lcp.rt and ipv4cp.rt.
ghost use Rattle.std.specs.Prelude.{◌≡◌, ◌≤◌, ltb};
ghost use Rattle.options.specs.Wire.{pkt_of, Tidy};
ghost use Rattle.options.specs.Options.{max_own, walk_of};
ghost use Rattle.options.specs.Reply.{rank_of};
ghost use Rattle.options.specs.Proto.{protocol_of, start_of, suggestion_of, judge_of, own_of, own_nacked, nacks_of};

use crate::ipv4cp::Ipv4cp;
use crate::lcp::Lcp;
use crate::refusal::Refusal;
use crate::walk::{Head, parse_option};
use crate::wire::{IPV4CP, LCP, Packet};

#[derive(Clone, Copy, PartialEq, Eq)]
pub enum Proto {
    Lcp(Lcp),
    Ipv4cp(Ipv4cp),
}

// In the order in which one outranks another.
#[derive(Clone, Copy, PartialEq, Eq, PartialOrd, Ord)]
pub enum Verdict {
    Ack,
    Nack,
    Rej,
}

impl Verdict {
    pub(crate) fn outranks(self, other: Self) -> bool
        ensures { result ≡ ltb (rank_of other) (rank_of self) }
    {
        other < self
    }
}

// The verdict on an option, and what the option leaves of the protocol.
#[derive(Clone, Copy, PartialEq, Eq)]
pub struct Judged<P> {
    pub verdict: Verdict,
    pub proto: P,
}

// What the options of a Nack or a Rej leave: `nacks_of` says it of a walk that is cut too, so the record is not in the Result.
#[derive(Clone, Copy, PartialEq, Eq)]
pub struct Nacked {
    pub outcome: Result<(), Refusal>,
    pub proto: Proto,
}

impl Proto {
    pub fn protocol(self) -> u16
        ensures { result ≡ protocol_of self }
    {
        match self {
            Proto::Lcp(_) => LCP,
            Proto::Ipv4cp(_) => IPV4CP,
        }
    }

    pub fn peer_options_start(self) -> Self
        ensures { result ≡ start_of self }
    {
        match self {
            Proto::Lcp(l) => Proto::Lcp(l.peer_options_start()),
            Proto::Ipv4cp(_) => self,
        }
    }

    // The value that a Nack sends back: IPv4CP never nacks, and suggests nothing.
    pub(crate) fn suggestion(self) -> &'static [u8]
        ensures { result.now ≡ suggestion_of self }
    {
        match self {
            Proto::Lcp(l) => l.suggestion(),
            Proto::Ipv4cp(_) => &[],
        }
    }

    pub(crate) fn peer_option_received(self, code: u8, d: &[u8]) -> Judged<Self>
        ensures { result ≡ judge_of self code d.now }
    {
        match self {
            Proto::Lcp(l) => {
                let Judged { verdict, proto } = l.peer_option_received(code, d);
                Judged {
                    verdict,
                    proto: Proto::Lcp(proto),
                }
            }
            Proto::Ipv4cp(i) => {
                let Judged { verdict, proto } = i.peer_option_received(code, d);
                Judged {
                    verdict,
                    proto: Proto::Ipv4cp(proto),
                }
            }
        }
    }

    // The own options, as they stand in a request.
    pub fn own_options(self) -> Packet
        ensures { (result ≡ pkt_of (own_of self)) × Tidy result × (result.len ≤ max_own) }
    {
        match self {
            Proto::Lcp(l) => l.own_options(),
            Proto::Ipv4cp(i) => i.own_options(),
        }
    }

    fn own_option_nacked(self, code: u8, d: &[u8], is_rej: bool) -> Self
        ensures { result ≡ own_nacked self code d.now is_rej }
    {
        match self {
            Proto::Lcp(l) => Proto::Lcp(l.own_option_nacked(code, d, is_rej)),
            Proto::Ipv4cp(i) => Proto::Ipv4cp(i.own_option_nacked(code, d, is_rej)),
        }
    }

    // A walk beside that of `answer_options`, which carries a reply and may stop at each option.
    pub fn own_options_nacked(self, s: &[u8], is_rej: bool) -> Nacked
        ensures { result ≡ nacks_of is_rej self (walk_of s.now) }
    {
        let mut q = self;
        let mut t = s;
        while !t.is_empty() {
            let Some(Head { code, len }) = parse_option(t) else {
                return Nacked {
                    outcome: Err(Refusal::OptionCut(s.len() - t.len())),
                    proto: q,
                };
            };
            q = q.own_option_nacked(code, &t[2..len], is_rej);
            t = &t[len..];
        }
        Nacked {
            outcome: Ok(()),
            proto: q,
        }
    }
}
