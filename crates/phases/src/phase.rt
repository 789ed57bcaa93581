// One phase step: what it opens and closes, and at most one packet.
ghost use Rattle.std.specs.Prelude.{◌≡◌, false, []};
ghost use Rattle.phases.specs.Phases.{step_to, opens_lcp, opens_ipv4cp, opens_auth, closes_ipv4cp, closes_auth, establish_of, auth_of, network_of, by_phase, dies_of, settled, phase_of, stepped_as, rests_in, rests_of};

use crate::ppp::{Phase, Ppp};
use negotiation::replies::Replies;
use negotiation::states::State;
use options::lcp::AuthType;

// What a phase step leaves: the record, and at most one packet.
#[derive(Clone, Copy)]
pub(crate) struct Stepped {
    pub(crate) ppp: Ppp,
    pub(crate) replies: Replies,
}

// `shut` and `up`: whether authentication is Closed, and whether it is Opened; in Establish the second does not count.
fn rests_in(f: Phase, l: State, shut: bool, up: bool, i: State) -> bool
    ensures { result ≡ rests_in f l shut up i }
{
    match f {
        Phase::Dead | Phase::Open => true,
        Phase::Establish => !l.is_closed() && !l.is_opened() && shut && i.is_closed(),
        Phase::Auth => !up && i.is_closed(),
        Phase::Network => !i.is_opened(),
    }
}

impl Ppp {
    fn still(self) -> Stepped
        ensures { result ≡ stepped_as (step_to self []) }
    {
        Stepped {
            ppp: self,
            replies: Replies::none(),
        }
    }

    fn open_lcp(self) -> Stepped
        ensures { result ≡ stepped_as (opens_lcp self) }
    {
        let h = self.lcp.wrap().open();
        Stepped {
            ppp: Ppp {
                opening: false,
                lcp: self.lcp.after(h.left),
                ..self
            },
            replies: h.replies,
        }
    }

    fn open_ipv4cp(self) -> Stepped
        ensures { result ≡ stepped_as (opens_ipv4cp self) }
    {
        let h = self.ipv4cp.wrap().open();
        Stepped {
            ppp: Ppp {
                phase: Phase::Network,
                ipv4cp: self.ipv4cp.after(h.left),
                ..self
            },
            replies: h.replies,
        }
    }

    fn open_auth(self) -> Stepped
        ensures { result ≡ stepped_as (opens_auth self) }
    {
        let h = self.auth.open();
        Stepped {
            ppp: Ppp {
                phase: Phase::Auth,
                auth: h.left,
                ..self
            },
            replies: h.replies,
        }
    }

    fn close_ipv4cp(mut self) -> Self
        ensures { result ≡ closes_ipv4cp self }
    {
        self.ipv4cp.state = State::Closed;
        self
    }

    fn close_auth(mut self) -> Self
        ensures { result ≡ closes_auth self }
    {
        self.auth = self.auth.close();
        self
    }

    fn establish(self) -> Stepped
        ensures { result ≡ stepped_as (establish_of self) }
    {
        if self.lcp.state.is_closed() {
            let o = self.open_lcp();
            return Stepped {
                ppp: o.ppp.close_auth().close_ipv4cp(),
                ..o
            };
        }
        if self.lcp.state.is_opened() {
            return match self.lcp.proto.auth {
                AuthType::None => self.open_ipv4cp(),
                AuthType::Pap => self.open_auth(),
            };
        }
        self.close_auth().close_ipv4cp().still()
    }

    fn authenticate(self) -> Stepped
        ensures { result ≡ stepped_as (auth_of self) }
    {
        if self.auth.opened() {
            return self.open_ipv4cp();
        }
        self.close_ipv4cp().still()
    }

    fn network(self) -> Stepped
        ensures { result ≡ stepped_as (network_of self) }
    {
        if self.ipv4cp.state.is_opened() {
            return Ppp {
                phase: Phase::Open,
                ..self
            }
            .still();
        }
        self.still()
    }

    fn by_phase(self) -> Stepped
        ensures { result ≡ stepped_as (by_phase self.phase self) }
    {
        match self.phase {
            Phase::Establish => self.establish(),
            Phase::Auth => self.authenticate(),
            Phase::Network => self.network(),
            Phase::Dead | Phase::Open => self.still(),
        }
    }

    fn dies(self) -> bool
        ensures { result ≡ dies_of self }
    {
        self.lcp.state.is_closed() && !self.opening
    }

    // Where LCP is Closed and is not being opened, the link is dead.
    fn settle(self) -> Self
        ensures { result ≡ settled self }
    {
        if self.dies() {
            return Ppp {
                phase: Phase::Dead,
                ..self
            };
        }
        self
    }

    pub(crate) fn step_phase(self) -> Stepped
        ensures { result ≡ stepped_as (phase_of self) }
    {
        let s = self.by_phase();
        Stepped {
            ppp: s.ppp.settle(),
            ..s
        }
    }

    // True only where a phase step would change nothing and send nothing.
    pub fn rests(self) -> bool
        ensures { result ≡ rests_of self }
    {
        rests_in(
            self.phase,
            self.lcp.state,
            self.auth.closed(),
            self.auth.opened(),
            self.ipv4cp.state,
        ) && !self.dies()
    }
}
