// Letters written of a log of seven records, and each refusal of the writer. After a refusal no byte of the output has changed.
use crate::logs::{changed_behind, log_of, output};
use runs::given::{front, record_of};
use runs::lines::{end_line, say_number, say_numbers};

// What is given to a write: the size and the index; the record's number and length; how much of the nodes and of the output is lent. Done, then each
// refusal once: 6, 1, 5, 3, 4, 13.
const ROWS: [[u64; 6]; 7] = [
    [11, 3, 3, 200, 352, 316],
    [11, 3, 3, 200, 352, 315],
    [2, 3, 3, 200, 352, 400],
    [11, 7, 3, 200, 352, 400],
    [11, 3, 3, 16385, 352, 400],
    [11, 3, 3, 200, 351, 400],
    [11, 3, 2, 200, 352, 400],
];

// Writes a letter into an output of which room bytes are lent, or all where there are fewer; prints the number, the length, and whether a byte behind
// that has changed.
fn show_write(rt: &impl Print, size: u64, index: u64, rec: &[u8], nodes: &[u8], room: usize) {
    let mode = digest::plain();
    let mut out = output();
    let lent = room.min(out.len());
    let w = letter_writer::write_letter(&mode, size, index, rec, nodes, &mut out[..lent]);
    let number = refusals::number(&w);
    let length = w.unwrap_or_default();
    say_numbers(rt, b":", &[number as u64, length as u64]);
    say_number(rt, b" differ ", changed_behind(&out, length));
    end_line(rt);
}

// One line: what is given, and what the writer makes of it.
fn try_write(rt: &impl Print, row: &[u64; 6], nodes: &[u8; 1216]) {
    say_numbers(rt, b"write", row);
    let [size, index, number, length, lent, room] = *row;
    let rec = record_of(number as usize);
    show_write(
        rt,
        size,
        index,
        front(&rec, length as usize),
        front(nodes, lent as usize),
        room as usize,
    );
}

pub(crate) fn show_all(rt: &impl Print) {
    let mut nodes = [0u8; 1216];
    log_of(7, &mut nodes);
    for row in &ROWS {
        try_write(rt, row, &nodes);
    }
}
