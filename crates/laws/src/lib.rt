// No functions: specs/ has the combinators that definitions are made of, proofs/ their laws.
#![tactic(auto)]
