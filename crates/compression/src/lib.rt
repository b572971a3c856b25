// The compression function of BLAKE3.
#![tactic(auto)]

pub mod compress;
