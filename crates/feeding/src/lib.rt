// Received bytes handed to a link, as the programs do it.
#![tactic(auto)]

pub mod feed;
