// Demands 2 and 3 over lists of calls, and the pool's other claims: definitions and proofs alone, and no code.
#![tactic(auto)]
