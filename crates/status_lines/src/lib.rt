// What shows of a link, as text.
#![tactic(auto)]

pub mod status;
