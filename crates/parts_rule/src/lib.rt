// Definitions and laws only: how input that arrives in parts is taken, and that its digest is the whole's.
#![tactic(auto)]
