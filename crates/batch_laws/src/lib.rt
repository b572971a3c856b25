// Definitions and laws only: what a batch promises beside its contract.
#![tactic(auto)]
