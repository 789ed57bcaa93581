// Packets and their options (RFC 1661, 1332, 1877): what LCP and IPv4CP ask for, and the reply to what the other end asks for.
// Nothing here knows of framing, nor of the automaton; the causes of all refusals in negotiation stand here too.
#![tactic(auto)]

pub mod ipv4cp;
pub mod lcp;
pub mod proto;
pub mod refusal;
pub mod walk;
pub mod wire;
