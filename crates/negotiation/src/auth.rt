// Authentication, as the phases see it: one set of credentials, and the protocols that may carry them.
ghost use Rattle.std.specs.Prelude.{◌≡◌};
ghost use Rattle.negotiation.specs.Credentials.{fresh_credentials};
ghost use Rattle.negotiation.specs.Auth.{auth_with, auth_after, is_auth_closed, is_auth_opened, auth_handled, pap_taken, auth_handle_of, opened_auth, closed_auth};

use crate::credentials::Credentials;
use crate::pap::{Pap, PapState};
use crate::replies::Handled;

#[derive(Clone, Copy)]
pub struct Auth {
    pub credentials: Credentials,
    pub pap: Pap,
}

impl Auth {
    pub fn new(username: &[u8], password: &[u8]) -> Self
        ensures { result ≡ auth_with (fresh_credentials username.now password.now) }
    {
        Auth {
            credentials: Credentials::new(username, password),
            pap: Pap::new(),
        }
    }

    pub fn closed(self) -> bool
        ensures { result ≡ is_auth_closed self }
    {
        self.pap.state == PapState::Closed
    }

    pub fn opened(self) -> bool
        ensures { result ≡ is_auth_opened self }
    {
        self.pap.state == PapState::Opened
    }

    // The credentials stay.
    fn after(self, pap: Pap) -> Self
        ensures { result ≡ auth_after self pap }
    {
        Auth { pap, ..self }
    }

    // What a step of PAP comes to.
    fn taken(self, h: Handled<Pap>) -> Handled<Self>
        ensures { result ≡ pap_taken self h }
    {
        Handled {
            outcome: h.outcome,
            echoed: h.echoed,
            left: self.after(h.left),
            replies: h.replies,
        }
    }

    // A received packet of protocol C023.
    pub fn handle_pap(self, pkt: &[u8]) -> Handled<Self>
        ensures { result ≡ auth_handled (auth_handle_of self pkt.now) }
    {
        self.taken(self.pap.handle(self.credentials, pkt))
    }

    // Whatever the state was.
    pub fn open(self) -> Handled<Self>
        ensures { result ≡ auth_handled (opened_auth self) }
    {
        self.taken(self.pap.open(self.credentials))
    }

    pub fn close(self) -> Self
        ensures { result ≡ closed_auth self }
    {
        self.after(self.pap.close())
    }
}
