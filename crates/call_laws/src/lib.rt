// What the calls' contracts come to, for whoever calls them: no code.
#![tactic(auto)]
