// Document 01's arithmetic as definitions, with a table of worked examples (specs/): no code.
#![tactic(auto)]
