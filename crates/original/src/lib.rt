// No code: the crate as ordered (ppproto 0.2.1), function by function, in specs/; that our link is the same link in proofs/.
#![tactic(auto)]
