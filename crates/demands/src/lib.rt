// Theorems alone: specs/ states each demand, proofs/ proves it.
#![tactic(auto)]
