// No functions: demand 3 over the rules. specs/ has its premises and its statement, proofs/ the proof and what leads to it.
#![tactic(auto)]
