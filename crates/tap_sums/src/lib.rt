// Sums by the taps of an axis: definitions and laws, no code.
#![tactic(auto)]
