// No code: what a reader's five counts say of a line, from document 02's words and RFC 1662's, in specs/, and that it holds in proofs/.
#![tactic(auto)]
