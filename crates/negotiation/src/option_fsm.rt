// The automaton of option negotiation: one step for LCP and IPv4CP.
ghost use Rattle.std.specs.Prelude.{◌≡◌, ◌≤◌};
ghost use Rattle.options.specs.Reply.{Ready};
ghost use Rattle.options.specs.declared.proto.Proto.{Proto};
ghost use Rattle.negotiation.specs.Wrapping.{of_lcp, of_ipv4cp, lcp_or, ipv4cp_or, fresh_fsm, with_proto};
ghost use Rattle.negotiation.specs.Automaton.{handled, refusal_of, with_state, stepped, requested_in, ack_of, after_reply, req_with, req_of, nack_with, nack_of, term_ack_of, ignore_of, echo_of, act_of, handle_of, protocol_reject_of, opened_fsm};

use crate::messages::{
    MAX_REJECTED, echo_packet, next_id, reject_packet, reply_packet, request_packet,
    terminate_ack_packet,
};
use crate::replies::{Handled, Replies};
use crate::states::State;
use options::ipv4cp::Ipv4cp;
use options::lcp::Lcp;
use options::proto::{Nacked, Proto};
use options::refusal::Refusal;
use options::walk::{Reply, answer_options};
use options::wire::{
    CONFIGURE_ACK, CONFIGURE_NACK, CONFIGURE_REJ, CONFIGURE_REQ, DISCARD_REQ, ECHO_REQ, MAX_PACKET,
    TERMINATE_REQ, length_in,
};

#[derive(Clone, Copy, PartialEq, Eq)]
pub struct OptionFsm<P> {
    pub id: u8,
    pub state: State,
    pub proto: P,
}

// A protocol that an automaton negotiates: it goes into a step as a Proto, and comes back.
pub trait Negotiated: Copy {
    ghost wrapped: { Self → Proto };

    ghost kept: { Proto → Self → Self };

    fn wrap(self) -> Proto
        ensures { result ≡ wrapped self };

    // A step keeps the protocol, so another one is never met, and `old` would stay.
    fn unwrap_or(p: Proto, old: Self) -> Self
        ensures { result ≡ kept p old };
}

impl Negotiated for Lcp {
    ghost wrapped = { of_lcp };

    ghost kept = { lcp_or };

    fn wrap(self) -> Proto {
        Proto::Lcp(self)
    }

    fn unwrap_or(p: Proto, old: Self) -> Self {
        match p {
            Proto::Lcp(l) => l,
            Proto::Ipv4cp(_) => old,
        }
    }
}

impl Negotiated for Ipv4cp {
    ghost wrapped = { of_ipv4cp };

    ghost kept = { ipv4cp_or };

    fn wrap(self) -> Proto {
        Proto::Ipv4cp(self)
    }

    fn unwrap_or(p: Proto, old: Self) -> Self {
        match p {
            Proto::Lcp(_) => old,
            Proto::Ipv4cp(i) => i,
        }
    }
}

impl<P> OptionFsm<P> {
    // Closed, with the id before the first.
    pub fn new(proto: P) -> Self
        ensures { result ≡ fresh_fsm proto }
    {
        OptionFsm {
            id: 1,
            state: State::Closed,
            proto,
        }
    }
}

impl<P: Negotiated> OptionFsm<P> {
    // For a step.
    pub fn wrap(self) -> OptionFsm<Proto>
        ensures { result ≡ with_proto self (P.wrapped self.proto) }
    {
        OptionFsm {
            id: self.id,
            state: self.state,
            proto: self.proto.wrap(),
        }
    }

    // What a step left, back in place.
    pub fn after(self, f: OptionFsm<Proto>) -> Self
        ensures { result ≡ with_proto f (P.kept f.proto self.proto) }
    {
        OptionFsm {
            id: f.id,
            state: f.state,
            proto: P::unwrap_or(f.proto, self.proto),
        }
    }
}

impl OptionFsm<Proto> {
    fn with_state(self, state: State) -> Self
        ensures { result ≡ with_state self state }
    {
        OptionFsm { state, ..self }
    }

    // The id steps before use.
    fn with_next_id(self) -> Self
        ensures { result ≡ stepped self }
    {
        OptionFsm {
            id: next_id(self.id),
            ..self
        }
    }

    fn ignore(self) -> Handled<Self>
        ensures { result ≡ handled (ignore_of self) }
    {
        Handled::new(self, Replies::none())
    }

    fn refuse(self, why: Refusal) -> Handled<Self>
        ensures { result ≡ handled (refusal_of self why) }
    {
        Handled {
            outcome: Err(why),
            ..self.ignore()
        }
    }

    // An own request behind the replies of `before`, of which there is at most one.
    fn send_configure_request(self, before: Replies) -> Handled<Self>
        requires { before.count ≤ 1 }
        ensures { result ≡ requested_in self before }
    {
        let f = self.with_next_id();
        Handled::new(f, before.add(request_packet(f.proto, f.id)))
    }

    fn send_terminate_ack(self, id: u8) -> Handled<Self>
        ensures { result ≡ handled (term_ack_of self id) }
    {
        Handled::new(
            self,
            Replies::none().add(terminate_ack_packet(self.proto, id)),
        )
    }

    fn send_echo_response(self, p: &[u8]) -> Handled<Self>
        ensures { result ≡ handled (echo_of self p.now) }
    {
        if !self.state.is_opened() {
            return self.ignore();
        }
        if p.len() < 3 {
            return self.refuse(Refusal::EchoEmpty);
        }
        if MAX_PACKET < p.len() {
            return self.refuse(Refusal::ReplyLong);
        }
        Handled {
            echoed: true,
            ..Handled::new(self, Replies::none().add(echo_packet(self.proto, p)))
        }
    }

    fn after_reply(self, r: Reply) -> Self
        ensures { result ≡ after_reply self r }
    {
        OptionFsm {
            state: self.state.after_req(r.verdict),
            proto: r.proto,
            ..self
        }
    }

    // The reply to a ConfigureReq, and an own request behind it from Opened.
    fn reply(self, id: u8, r: Reply) -> Handled<Self>
        requires { Ready r }
        ensures { result ≡ handled (req_with self id r) }
    {
        if let Err(why) = r.outcome {
            return self.refuse(why);
        }
        let f = self.after_reply(r);
        let replies = Replies::none().add(reply_packet(id, r));
        if self.state.is_opened() {
            return f.send_configure_request(replies);
        }
        Handled::new(f, replies)
    }

    fn received_configure_req(self, id: u8, p: &[u8]) -> Handled<Self>
        ensures { result ≡ handled (req_of self id p.now) }
    {
        if p.len() < 6 {
            return self.refuse(Refusal::ConfigureShort);
        }
        self.reply(id, answer_options(self.proto.peer_options_start(), &p[6..]))
    }

    fn received_configure_ack(self) -> Handled<Self>
        ensures { result ≡ handled (ack_of self) }
    {
        let f = self.with_state(self.state.after_ack());
        if self.state.ack_resends() {
            return f.send_configure_request(Replies::none());
        }
        f.ignore()
    }

    fn update(self, n: Nacked) -> Handled<Self>
        ensures { result ≡ handled (nack_with self n) }
    {
        if let Err(why) = n.outcome {
            return self.refuse(why);
        }
        let f = OptionFsm {
            state: self.state.after_nack(),
            proto: n.proto,
            ..self
        };
        f.send_configure_request(Replies::none())
    }

    fn received_configure_nack(self, is_rej: bool, p: &[u8]) -> Handled<Self>
        ensures { result ≡ handled (nack_of self is_rej p.now) }
    {
        if p.len() < 6 {
            return self.refuse(Refusal::ConfigureShort);
        }
        self.update(self.proto.own_options_nacked(&p[6..], is_rej))
    }

    // A packet, cut to its Length, by its code.
    fn act(self, code: u8, id: u8, p: &[u8]) -> Handled<Self>
        ensures { result ≡ handled (act_of self code id p.now) }
    {
        match code {
            ECHO_REQ => self.send_echo_response(p),
            DISCARD_REQ => self.ignore(),
            _ if self.state.is_closed() => self.send_terminate_ack(id),
            CONFIGURE_REQ => self.received_configure_req(id, p),
            CONFIGURE_ACK => self.received_configure_ack(),
            CONFIGURE_NACK => self.received_configure_nack(false, p),
            CONFIGURE_REJ => self.received_configure_nack(true, p),
            TERMINATE_REQ => self
                .with_state(self.state.after_term())
                .send_terminate_ack(id),
            _ => self.ignore(),
        }
    }

    pub fn handle(self, p: &[u8]) -> Handled<Self>
        ensures { result ≡ handled (handle_of self p.now) }
    {
        if p.len() < 6 {
            return self.ignore();
        }
        let n = length_in(p) as usize + 2;
        if p.len() < n {
            return self.ignore();
        }
        self.act(p[2], p[3], &p[..n])
    }

    // An unknown protocol is rejected in every state; the id steps.
    pub fn send_protocol_reject(self, pkt: &[u8]) -> Handled<Self>
        ensures { result ≡ handled (protocol_reject_of self pkt.now) }
    {
        if MAX_REJECTED < pkt.len() {
            return self.refuse(Refusal::ReplyLong);
        }
        let f = self.with_next_id();
        Handled::new(f, Replies::none().add(reject_packet(f.id, pkt)))
    }

    // Whatever the state was.
    pub fn open(self) -> Handled<Self>
        ensures { result ≡ handled (opened_fsm self) }
    {
        self.with_state(State::ReqSent)
            .send_configure_request(Replies::none())
    }
}
