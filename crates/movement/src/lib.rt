// The movement between two stills as definitions, with worked examples: no code.
#![tactic(auto)]
