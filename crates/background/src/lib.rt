// The background of document 02 as definitions: no code.
#![tactic(auto)]
