// No code: demand 3, two ends meet, as a statement about the link's own definitions in specs/ and as a theorem in proofs/.
#![tactic(auto)]
