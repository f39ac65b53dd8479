// What is proved of the movement between two samples: no code.
#![tactic(auto)]
