// The link's phases: which packet goes to which automaton, and what one phase step opens and closes.
#![tactic(auto)]

pub mod phase;
pub mod ppp;
