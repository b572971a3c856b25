// Inputs in parts of one length, and some bytes more: whole, cut around the edges of blocks, chunks and four chunks, byte by byte; empty parts.
use crate::lines::show_added;
use parts::Parts;
use runs::given::{front, record_of};
use runs::lines::say_numbers;

// So many bytes from a place on; none where there are fewer.
fn part_of<'a>(bytes: &'a [u8], from: usize, n: usize) -> &'a [u8] {
    if from <= bytes.len() {
        if n <= bytes.len() - from {
            return &bytes[from..from + n];
        }
    }
    front(bytes, 0)
}

// The state with so many parts of one length more.
fn taken(state: Parts, bytes: &[u8], length: usize, count: usize) -> Parts {
    let mut s = state;
    for _ in 0..count {
        let from = s.total as usize;
        s = parts::state_after(s, parts::add(s, part_of(bytes, from, length)));
    }
    s
}

// The line of so many parts of one length, and of more bytes behind them at once.
fn show_row(rt: &impl Print, begun: Parts, length: usize, count: usize, more: usize) {
    let row = [length as u64, count as u64, more as u64];
    say_numbers(rt, b" ", &row);
    let bytes = record_of(0);
    let s = taken(begun, &bytes, length, count);
    let from = s.total as usize;
    show_added(rt, s, parts::add(s, part_of(&bytes, from, more)));
}

// The lengths of digest_run, in one part.
fn show_lengths(rt: &impl Print, begun: Parts) {
    for length in [0, 1, 63, 64, 65, 1023, 1024, 1025, 2048, 2049] {
        show_row(rt, begun, length, 1, 0);
    }
}

// Cut after so many bytes: a byte behind them, and a block.
fn show_two(rt: &impl Print, begun: Parts, at: usize) {
    show_row(rt, begun, at, 1, 1);
    show_row(rt, begun, at, 1, 64);
}

// Cut at each place around an edge, of which the first is given.
fn show_edge(rt: &impl Print, begun: Parts, first: usize) {
    if first < 5000 {
        for at in first..first + 5 {
            show_two(rt, begun, at);
        }
    }
}

// Empty parts, byte by byte, and parts up to more than four chunks.
fn show_steps(rt: &impl Print, begun: Parts) {
    let rows = [
        [0, 3, 1],
        [1, 65, 1],
        [1, 1025, 3000],
        [1, 4097, 0],
        [7, 150, 5000],
        [63, 66, 5000],
        [64, 80, 0],
        [1024, 5, 9000],
        [1500, 10, 1],
        [4096, 3, 4097],
        [5000, 2, 6385],
    ];
    for [length, count, more] in rows {
        show_row(rt, begun, length, count, more);
    }
}

// The lines of all cuts of what is added to a state that was begun.
pub(crate) fn show_all(rt: &impl Print, begun: Parts) {
    show_lengths(rt, begun);
    show_edge(rt, begun, 62);
    show_edge(rt, begun, 1022);
    show_edge(rt, begun, 4094);
    show_steps(rt, begun);
}
