// No code: packets, codes and options of RFC 1661, 1662 (7.1), 1334, 1332 and 1877 in specs/, and that negotiation sends, reads and judges them so in proofs/.
#![tactic(auto)]
