// Definitions and laws only: the root of a list of records, without positions.
#![tactic(auto)]
