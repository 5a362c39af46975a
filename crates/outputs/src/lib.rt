// How answers cross to another language: specs/ has the forms of the contracts, proofs/ their laws.
#![tactic(auto)]
