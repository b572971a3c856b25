// Definitions and laws only: that the digest of input in parts is that of the whole, however it was cut.
#![tactic(auto)]
