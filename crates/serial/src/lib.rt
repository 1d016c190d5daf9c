// The theory of serial orders: definitions in specs/, laws in proofs/; it has no code.
#![tactic(auto)]
