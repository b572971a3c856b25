// Passages written, checked, handed out and compared at the edges: what the calls are given stands on standard input, and what they answer is to be
// compared with the second program's. "pair" and "records" take a collision, so neither is met here.
#![tactic(auto)]

mod calls;
mod given;

use std::io::Read;

// One line for each row of numbers, up to the place that stands first.
fn show_rows(rt: &impl Print, input: &[u8]) {
    let end = given::at_most(wire::read8(input, 0), input.len());
    for at in (8..end).step_by(176) {
        calls::show_row(rt, input, &input[at..]);
    }
}

// The same for all that is read.
fn show_read(rt: &impl Print, stdin: &mut impl Read, input: &mut [u8]) {
    let n = streams::read_full(stdin, input);
    show_rows(rt, &input[..n]);
}

fn main(rt: HostRuntime) {
    let mut input = [0u8; 262144];
    show_read(&rt, &mut rt.stdin(), &mut input);
}
