// What the programs share that run a crate at its edges: the bytes that they give it, and the words that they print.
#![tactic(auto)]

pub mod given;
pub mod lines;
