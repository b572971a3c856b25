#![tactic(auto)]

// Definitions and laws only: what writer, checker and finder promise together.
