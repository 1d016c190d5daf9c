// The serial order of an accepted trace: specs/Demand3.antt states it, proofs/Demand3.antt proves it.
#![tactic(auto)]
