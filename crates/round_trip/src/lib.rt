// What is written reads back as the same picture: no code.
#![tactic(auto)]
