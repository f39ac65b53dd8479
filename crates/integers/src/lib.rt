// Division and sums of integers and signed machine numbers: definitions and laws only.
#![tactic(auto)]
