// Definitions and laws only: specs/ says what a store of contexts is, what a number in it stands for, and how sets are placed in it.
#![tactic(auto)]
