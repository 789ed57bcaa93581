// No code: the definitions in specs/ and the laws in proofs/ name nothing of PPP.
#![tactic(auto)]
