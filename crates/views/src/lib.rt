// Definitions and laws only: what a letter shows of a log, whatever its kind, and what any nodes show beside it.
#![tactic(auto)]
