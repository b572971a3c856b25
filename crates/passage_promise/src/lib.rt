#![tactic(auto)]

// Definitions and laws only: what writer, checker and finder of passage letters promise together.
