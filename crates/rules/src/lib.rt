// Definitions and laws alone: specs/ has the format's rules and the bytes that they make, proofs/ what they have to do with each other and with the reader.
#![tactic(auto)]
