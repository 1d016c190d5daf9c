// Tails that finish a paper: definitions in specs/, laws in proofs/; it has no code.
#![tactic(auto)]
