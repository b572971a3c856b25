// A letter of a log of seven records, and each refusal of the checker: what it states, its length, and what it is checked against are changed.
use crate::logs::{letter_of, log_of, root_of, show_checked};
use runs::given::{front, restate};
use runs::lines::{end_line, say_numbers};

// The root of the log, and a byte behind it.
fn root() -> [u8; 33] {
    let mut nodes = [0u8; 1216];
    let size = log_of(7, &mut nodes);
    let mut out = [0u8; 33];
    wire::write_digest(&mut out, 0, root_of(size, &nodes));
    out
}

// The letter of index 3 as it states another size, index and record length.
fn restated(named: u64, index: u64, stated: u64) -> [u8; 400] {
    let mut nodes = [0u8; 1216];
    let size = log_of(7, &mut nodes);
    let mut out = [0u8; 400];
    letter_of(size, 3, &nodes, &mut out);
    restate(&mut out, named, index, stated);
    out
}

// What is given to a check: the trusted size and how much of the root is lent; the size, the index and the record length that the letter states, and
// its length. Done, then each refusal once: 1, 12, 7 (under 20), 8, 5, 3, 7 (one byte short, one byte long), 9.
const ROWS: [[u64; 6]; 10] = [
    [11, 32, 11, 3, 200, 316],
    [2, 32, 11, 3, 200, 316],
    [11, 31, 11, 3, 200, 316],
    [11, 32, 11, 3, 200, 19],
    [11, 32, 4, 3, 200, 316],
    [11, 32, 11, 7, 200, 316],
    [11, 32, 11, 3, 16385, 316],
    [11, 32, 11, 3, 200, 315],
    [11, 32, 11, 3, 200, 317],
    [11, 32, 11, 2, 200, 316],
];

// One line: what is given, and what the checker makes of it.
fn try_check(rt: &impl Print, row: &[u64; 6]) {
    let mode = digest::plain();
    say_numbers(rt, b"check", row);
    let [size, lent, named, index, stated, length] = *row;
    let trusted = root();
    let given = restated(named, index, stated);
    let c = letter_checker::check(
        &mode,
        size,
        front(&trusted, lent as usize),
        front(&given, length as usize),
    );
    show_checked(rt, b":", c);
    end_line(rt);
}

pub(crate) fn show_all(rt: &impl Print) {
    for row in &ROWS {
        try_check(rt, row);
    }
}
