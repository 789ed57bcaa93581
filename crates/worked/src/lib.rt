// No code: document 01's worked examples K1 to K13 as one table in specs/, and the claim that every row holds in proofs/.
#![tactic(auto)]
