// Definitions and laws only: the largest power of two below a number.
#![tactic(auto)]
