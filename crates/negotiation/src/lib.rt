// PPP negotiation (RFC 1661, 1334): one automaton for LCP and IPv4CP, authentication by PAP, and the packets that they send.
// Nothing here knows of framing.
#![tactic(auto)]

pub mod auth;
pub mod credentials;
mod messages;
pub mod option_fsm;
pub mod pap;
pub mod replies;
pub mod states;
