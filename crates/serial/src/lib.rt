// What the programs share beside the reading of input: a link with its buffers, and a generator of numbers.
#![tactic(auto)]

pub mod generator;
pub mod line;
