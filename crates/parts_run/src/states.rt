// States with other counts than those that they were made with: the total's, wrong by one, at the limit and beyond it, a stack too high or too low.
use crate::lines::{show_added, show_end};
use parts::Parts;
use runs::given::{front, record_of};
use runs::lines::say_numbers;

// The counts of some totals, and each of them wrong by one.
const OFF: [(u64, u64, u32, usize); 19] = [
    (0, 0, 0, 0),
    (0, 1, 0, 0),
    (0, 0, 1, 0),
    (1, 0, 0, 1),
    (1, 2, 0, 1),
    (64, 0, 0, 1),
    (64, 63, 0, 1),
    (64, 65, 0, 1),
    (1024, 64, 0, 1),
    (1024, 63, 0, 1),
    (1024, 0, 1, 1),
    (1024, 64, 1, 0),
    (1025, 1, 1, 1),
    (1024, 1, 1, 1),
    (1026, 1, 1, 1),
    (1025, 0, 1, 0),
    (1025, 2, 1, 0),
    (1025, 1, 0, 1),
    (1025, 1, 2, 1),
];

// A stack too high or too low for its total.
const STACKS: [(u64, u64, u32, usize); 7] = [
    (4096, 64, 2, 1),
    (4096, 64, 1, 1),
    (4096, 64, 3, 1),
    (4097, 1, 1, 1),
    (4097, 1, 0, 1),
    (4097, 1, 2, 1),
    (4097, 1, 4294967295, 0),
];

// Five bytes before 2^40 and a chunk before it, at it, one byte behind it, and at 2^64 - 1.
const LIMITS: [(u64, u64, u32, usize); 15] = [
    (1099511627771, 59, 30, 0),
    (1099511627771, 59, 30, 5),
    (1099511627771, 59, 30, 6),
    (1099511626752, 64, 29, 1024),
    (1099511626752, 64, 29, 1025),
    (1099511627776, 64, 30, 0),
    (1099511627776, 64, 30, 1),
    (1099511627776, 63, 30, 0),
    (1099511627776, 64, 29, 0),
    (1099511627776, 64, 31, 0),
    (1099511627777, 1, 1, 0),
    (1099511627777, 1, 1, 1),
    (18446744073709551615, 63, 54, 0),
    (18446744073709551615, 63, 54, 1),
    (18446744073709551615, 63, 54, 2),
];

// Counts that are their total's, and parts from none to more than four chunks.
const RIGHT: [(u64, u64, u32, usize); 9] = [
    (0, 0, 0, 1025),
    (0, 0, 0, 9000),
    (1, 1, 0, 63),
    (63, 63, 0, 2),
    (1024, 64, 0, 0),
    (1025, 1, 1, 7168),
    (3072, 64, 1, 1),
    (4096, 64, 2, 5000),
    (4294967296, 64, 22, 1),
];

// A state with anything in its other fields, and this number for its mode.
pub(crate) fn any_state(keyed: u32) -> Parts {
    Parts {
        total: 0,
        held: 0,
        stacked: 0,
        keyed,
        key: [16909060u32; 8],
        chain: [286397204u32; 8],
        stack: [555885348u32; 240],
        block: [49u8; 64],
    }
}

// Two lines of a state with other counts, its total, what the block holds, how many subtrees: what it ends in, and what comes of n bytes added to it.
fn try_counts(rt: &impl Print, state: Parts, row: (u64, u64, u32, usize)) {
    let (total, held, stacked, n) = row;
    let s = Parts {
        total,
        held,
        stacked,
        ..state
    };
    let bytes = record_of(0);
    let numbers = [total, held, stacked as u64, n as u64];
    say_numbers(rt, b" ", &numbers);
    show_end(rt, s);
    say_numbers(rt, b" ", &numbers);
    show_added(rt, s, parts::add(s, front(&bytes, n)));
}

// What comes of a state with each of these counts.
pub(crate) fn show_all(rt: &impl Print, state: Parts) {
    for row in OFF {
        try_counts(rt, state, row);
    }
    for row in STACKS {
        try_counts(rt, state, row);
    }
    for row in LIMITS {
        try_counts(rt, state, row);
    }
    for row in RIGHT {
        try_counts(rt, state, row);
    }
}
