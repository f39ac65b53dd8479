// What is proved of the model, the tolerance theorem above all (proofs/): no code.
#![tactic(auto)]
