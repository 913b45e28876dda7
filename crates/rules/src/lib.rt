// No functions: specs/ has the rules of document 01 as definitions, which every contract above cites; proofs/ what is shown of them.
#![tactic(auto)]
