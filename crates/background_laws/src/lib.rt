// What is proved of the background's definitions: no code.
#![tactic(auto)]
