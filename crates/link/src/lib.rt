// The link: framing below, negotiation and its phases beside it.
#![tactic(auto)]

pub mod choices;
pub mod frames;
pub mod pppos;
pub mod refusal;
