// The password authentication protocol (RFC 1334), over the credentials that it is handed.
ghost use Rattle.std.specs.Prelude.{◌≡◌, ◌+◌, ◌≤◌, [], length};
ghost use Rattle.options.specs.Wire.{pkt_of, packet_of};
ghost use Rattle.negotiation.specs.Pap.{fresh_pap, credential_bytes, pap_bytes, with_pap_state, stepped_pap, pap_handled, pap_reacts, pap_requested, pap_act_of, pap_handle_of, opened_pap};
ghost use Rattle.negotiation.specs.Credentials.{max_credentials};

use crate::credentials::Credentials;
use crate::messages::next_id;
use crate::replies::{Handled, Replies, emit_packet};
use options::refusal::Refusal;
use options::wire::{CONFIGURE_ACK, CONFIGURE_NACK, CONFIGURE_REQ, PAP, Packet, length_in};

#[derive(Clone, Copy, PartialEq, Eq)]
pub enum PapState {
    Closed,
    ReqSent,
    Opened,
}

#[derive(Clone, Copy, PartialEq, Eq)]
pub struct Pap {
    pub state: PapState,
    pub id: u8,
}

impl Pap {
    pub(crate) fn new() -> Self
        ensures { result ≡ fresh_pap }
    {
        Pap {
            state: PapState::Closed,
            id: 1,
        }
    }

    fn with_state(self, state: PapState) -> Self
        ensures { result ≡ with_pap_state self state }
    {
        Pap { state, ..self }
    }

    fn stepped(self) -> Self
        ensures { result ≡ stepped_pap self }
    {
        Pap {
            id: next_id(self.id),
            ..self
        }
    }

    fn request_packet(self, c: Credentials) -> Packet
        ensures { result ≡ pkt_of (pap_bytes c self) }
    {
        credentials_packet(next_id(self.id), c.name(), c.password())
    }

    fn send_configure_request(self, c: Credentials) -> Handled<Self>
        ensures { result ≡ pap_handled (pap_requested c self) }
    {
        Handled::new(self.stepped(), Replies::none().add(self.request_packet(c)))
    }

    fn ignore(self) -> Handled<Self>
        ensures { result ≡ pap_handled (pap_reacts self []) }
    {
        Handled::new(self, Replies::none())
    }

    fn act(self, c: Credentials, code: u8) -> Handled<Self>
        ensures { result ≡ pap_handled (pap_act_of c self code) }
    {
        if self.state != PapState::ReqSent {
            return self.ignore();
        }
        match code {
            CONFIGURE_ACK => self.with_state(PapState::Opened).ignore(),
            CONFIGURE_NACK => self.send_configure_request(c),
            _ => self.ignore(),
        }
    }

    pub(crate) fn handle(self, c: Credentials, p: &[u8]) -> Handled<Self>
        ensures { result ≡ pap_handled (pap_handle_of c self p.now) }
    {
        if p.len() < 6 {
            return self.ignore();
        }
        let len = length_in(p) as usize;
        if p.len() < len {
            return self.ignore();
        }
        if p.len() < len + 2 {
            return Handled {
                outcome: Err(Refusal::PapPast),
                ..self.ignore()
            };
        }
        self.act(c, p[2])
    }

    // Whatever the state was.
    pub(crate) fn open(self, c: Credentials) -> Handled<Self>
        ensures { result ≡ pap_handled (opened_pap c self) }
    {
        self.with_state(PapState::ReqSent).send_configure_request(c)
    }

    pub(crate) fn close(self) -> Self
        ensures { result ≡ with_pap_state self PapState.Closed }
    {
        self.with_state(PapState::Closed)
    }
}

fn credentials_packet(id: u8, username: &[u8], password: &[u8]) -> Packet
    requires { length username.now + length password.now ≤ max_credentials }
    ensures { result ≡ pkt_of (packet_of 0xC023 1 id (credential_bytes username.now password.now)) }
{
    let b = Packet::blank()
        .push_all(&[username.len() as u8])
        .push_all(username)
        .push_all(&[password.len() as u8])
        .push_all(password);
    emit_packet(PAP, CONFIGURE_REQ, id, b)
}
