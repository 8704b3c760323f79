// Definitions and laws only: specs/ proves that sound words and the stores that they hold determine each other.
#![tactic(auto)]
