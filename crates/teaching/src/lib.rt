// No functions: document 01's teaching catalog as bytes and as kinds, and what is shown of it.
#![tactic(auto)]
