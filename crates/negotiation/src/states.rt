// The states of the automaton, and the table of moves between them.
ghost use Rattle.std.specs.Prelude.{◌≡◌};
ghost use Rattle.negotiation.specs.Automaton.{after_acked, after_not_acked, after_req, after_ack, ack_resends, after_nack, after_term, is_closed, is_opened};

use options::proto::Verdict;

#[derive(Clone, Copy, PartialEq, Eq)]
pub enum State {
    Closed,
    ReqSent,
    AckReceived,
    AckSent,
    Opened,
}

impl State {
    fn after_acked(self) -> Self
        ensures { result ≡ after_acked self }
    {
        match self {
            State::Closed => State::Closed,
            State::AckReceived => State::Opened,
            State::ReqSent | State::AckSent | State::Opened => State::AckSent,
        }
    }

    fn after_not_acked(self) -> Self
        ensures { result ≡ after_not_acked self }
    {
        match self {
            State::Closed => State::Closed,
            State::AckReceived => State::AckReceived,
            State::ReqSent | State::AckSent | State::Opened => State::ReqSent,
        }
    }

    pub(crate) fn after_req(self, v: Verdict) -> Self
        ensures { result ≡ after_req self v }
    {
        match v {
            Verdict::Ack => self.after_acked(),
            Verdict::Nack | Verdict::Rej => self.after_not_acked(),
        }
    }

    pub(crate) fn after_ack(self) -> Self
        ensures { result ≡ after_ack self }
    {
        match self {
            State::Closed => State::Closed,
            State::ReqSent => State::AckReceived,
            State::AckSent => State::Opened,
            State::AckReceived | State::Opened => State::ReqSent,
        }
    }

    pub(crate) fn ack_resends(self) -> bool
        ensures { result ≡ ack_resends self }
    {
        matches!(self, State::AckReceived | State::Opened)
    }

    pub(crate) fn after_nack(self) -> Self
        ensures { result ≡ after_nack self }
    {
        match self {
            State::Closed => State::Closed,
            State::AckSent => State::AckSent,
            State::ReqSent | State::AckReceived | State::Opened => State::ReqSent,
        }
    }

    pub(crate) fn after_term(self) -> Self
        ensures { result ≡ after_term self }
    {
        match self {
            State::Closed | State::Opened => State::Closed,
            State::ReqSent | State::AckReceived | State::AckSent => State::ReqSent,
        }
    }

    pub fn is_closed(self) -> bool
        ensures { result ≡ is_closed self }
    {
        self == State::Closed
    }

    pub fn is_opened(self) -> bool
        ensures { result ≡ is_opened self }
    {
        self == State::Opened
    }
}
