// The link's phases: packets go to LCP, authentication or IPv4CP, and each call takes one phase step.
ghost use Rattle.std.specs.Prelude.{◌≡◌, []};
ghost use Rattle.negotiation.specs.Automaton.{handle_of};
ghost use Rattle.phases.specs.Phases.{fresh_with, lcp_in, ipv4cp_in, turn_to, turn_refused, from_lcp, lcp_taken, from_ipv4cp, reject_of, received_of, poll_of, turn_of, open_of, new_of, addresses_of, status_of, as_turned, turned_by, Changes, Turns, from_auth};
ghost use Rattle.negotiation.specs.Auth.{auth_handle_of};

use crate::phase::Stepped;
use negotiation::auth::Auth;
use negotiation::credentials::is_within;
use negotiation::option_fsm::OptionFsm;
use negotiation::replies::{Handled, Replies};
use options::ipv4cp::{Ipv4cp, show};
use options::lcp::Lcp;
use options::proto::Proto;
use options::refusal::Refusal;
use options::wire::{IPV4, IPV4CP, LCP, PAP, protocol_in};

#[derive(Clone, Copy, PartialEq, Eq)]
pub enum Phase {
    Dead,
    Establish,
    Auth,
    Network,
    Open,
}

#[derive(Clone, Copy)]
pub struct Ppp {
    pub phase: Phase,
    pub opening: bool,
    pub lcp: OptionFsm<Lcp>,
    pub auth: Auth,
    pub ipv4cp: OptionFsm<Ipv4cp>,
}

#[derive(Clone, Copy, PartialEq, Eq)]
pub struct Addresses {
    pub address: Option<u32>,
    pub peer_address: Option<u32>,
    pub dns_server_1: Option<u32>,
    pub dns_server_2: Option<u32>,
}

#[derive(Clone, Copy, PartialEq, Eq)]
pub struct Status {
    pub phase: Phase,
    pub ipv4: Option<Addresses>,
}

// Not a Result: a refusal leaves a record too. Nor one type with the records of framing, the link and the outbox: each field says what is left.
#[derive(Clone, Copy)]
pub struct Changed {
    pub outcome: Result<(), Refusal>,
    pub ppp: Ppp,
}

// `echoed`: the packet is an echo that was answered, so its byte 2 becomes 10.
// Not Handled<Ppp>, which is no plainer: callers read `ppp`, and `left` would say less.
#[derive(Clone, Copy)]
pub struct Turned {
    pub outcome: Result<(), Refusal>,
    pub echoed: bool,
    pub ppp: Ppp,
    pub replies: Replies,
}

fn addresses_of(i: Ipv4cp) -> Addresses
    ensures { result ≡ addresses_of i }
{
    Addresses {
        address: i.address.get(),
        peer_address: show(i.peer_address),
        dns_server_1: i.dns_server_1.get(),
        dns_server_2: i.dns_server_2.get(),
    }
}

impl Ppp {
    fn fresh(auth: Auth) -> Self
        ensures { result ≡ fresh_with auth }
    {
        Ppp {
            phase: Phase::Dead,
            opening: false,
            lcp: OptionFsm::new(Lcp::new()),
            auth,
            ipv4cp: OptionFsm::new(Ipv4cp::new()),
        }
    }

    // Phase Dead. Name and password that are too long together are refused, and the record has neither.
    pub fn new(username: &[u8], password: &[u8]) -> Changed
        ensures { Changes (new_of username.now password.now) result.outcome result.ppp }
    {
        let outcome = if is_within(username.len(), password.len()) {
            Ok(())
        } else {
            Err(Refusal::CredentialsLong)
        };
        Changed {
            outcome,
            ppp: Ppp::fresh(Auth::new(username, password)),
        }
    }

    // Starts the link from phase Dead.
    pub fn open(self) -> Changed
        ensures { Changes (open_of self) result.outcome result.ppp }
    {
        if self.phase != Phase::Dead {
            return Changed {
                outcome: Err(Refusal::NotDead),
                ppp: self,
            };
        }
        Changed {
            outcome: Ok(()),
            ppp: Ppp {
                phase: Phase::Establish,
                opening: true,
                ..self
            },
        }
    }

    pub fn status(self) -> Status
        ensures { result ≡ status_of self }
    {
        let addresses = addresses_of(self.ipv4cp.proto);
        Status {
            phase: self.phase,
            ipv4: self.ipv4cp.state.is_opened().then_some(addresses),
        }
    }

    fn ignore(self) -> Turned
        ensures { result ≡ as_turned (turn_to self []) }
    {
        Turned {
            outcome: Ok(()),
            echoed: false,
            ppp: self,
            replies: Replies::none(),
        }
    }

    fn refuse(self, why: Refusal) -> Turned
        ensures { result ≡ as_turned (turn_refused self why) }
    {
        Turned {
            outcome: Err(why),
            ..self.ignore()
        }
    }

    // What a step comes to, where this record has what it left.
    fn turned<S: Copy>(self, h: Handled<S>) -> Turned
        ensures { result ≡ turned_by self h }
    {
        Turned {
            outcome: h.outcome,
            echoed: h.echoed,
            ppp: self,
            replies: h.replies,
        }
    }

    // What a step of LCP's automaton comes to.
    fn take_lcp(self, h: Handled<OptionFsm<Proto>>) -> Turned
        ensures { result ≡ lcp_taken self h }
    {
        let lcp = self.lcp.after(h.left);
        Ppp { lcp, ..self }.turned(h)
    }

    fn received_lcp(self, pkt: &[u8]) -> Turned
        ensures { result ≡ as_turned (from_lcp self (handle_of (lcp_in self.lcp) pkt.now)) }
    {
        self.take_lcp(self.lcp.wrap().handle(pkt))
    }

    fn received_pap(self, pkt: &[u8]) -> Turned
        ensures { result ≡ as_turned (from_auth self (auth_handle_of self.auth pkt.now)) }
    {
        let h = self.auth.handle_pap(pkt);
        let auth = h.left;
        Ppp { auth, ..self }.turned(h)
    }

    fn received_ipv4cp(self, pkt: &[u8]) -> Turned
        ensures { result ≡ as_turned (from_ipv4cp self (handle_of (ipv4cp_in self.ipv4cp) pkt.now)) }
    {
        let h = self.ipv4cp.wrap().handle(pkt);
        let ipv4cp = self.ipv4cp.after(h.left);
        Ppp { ipv4cp, ..self }.turned(h)
    }

    // An unknown protocol is rejected in every phase.
    fn send_protocol_reject(self, pkt: &[u8]) -> Turned
        ensures { result ≡ as_turned (reject_of self pkt.now) }
    {
        self.take_lcp(self.lcp.wrap().send_protocol_reject(pkt))
    }

    fn received(self, pkt: &[u8]) -> Turned
        ensures { result ≡ as_turned (received_of self pkt.now) }
    {
        if pkt.len() < 2 {
            return self.refuse(Refusal::PacketShort);
        }
        match protocol_in(pkt) as u16 {
            LCP => self.received_lcp(pkt),
            PAP => self.received_pap(pkt),
            IPV4 => self.ignore(),
            IPV4CP => self.received_ipv4cp(pkt),
            _ => self.send_protocol_reject(pkt),
        }
    }

    // A phase step, where nothing was received.
    pub fn poll(self) -> Turned
        ensures { Turns (poll_of self) result.outcome result.echoed result.ppp result.replies }
    {
        let Stepped { ppp, replies } = self.step_phase();
        Turned {
            outcome: Ok(()),
            echoed: false,
            ppp,
            replies,
        }
    }

    // One received packet, then a phase step; a refusal changes nothing.
    pub fn turn(self, pkt: &[u8]) -> Turned
        ensures { Turns (turn_of self pkt.now) result.outcome result.echoed result.ppp result.replies }
    {
        let t = self.received(pkt);
        if let Err(why) = t.outcome {
            return self.refuse(why);
        }
        if t.ppp.rests() {
            return t;
        }
        let Stepped { ppp, replies } = t.ppp.step_phase();
        Turned {
            ppp,
            replies: t.replies.join(replies),
            ..t
        }
    }
}
