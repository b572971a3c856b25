// Every letter of logs of 1 to 20 records: written, checked, its record compared.
use crate::logs::{changed_behind, grow, output, root_of, show_checked};
use runs::given::{front, length_of, record_of};
use runs::lines::{end_line, say_digest, say_numbers};

// A letter of n bytes: its digest; what the checker makes of it; whether its record differs from the log's, and whether a byte behind it has changed.
fn show_letter(
    rt: &impl Print,
    size: u64,
    root: [u8; 32],
    out: &[u8; 16640],
    n: usize,
    rec: &[u8],
) {
    let mode = digest::plain();
    let letter = front(out, n);
    say_digest(rt, b" ", letter);
    show_checked(
        rt,
        b" check",
        letter_checker::check(&mode, size, &root, letter),
    );
    let other = wire::differ(letter_checker::record_in(&mode, size, &root, letter), rec);
    let numbers = [other as u64, changed_behind(out, n)];
    say_numbers(rt, b" differ", &numbers);
    end_line(rt);
}

// The line of one letter, written with its record.
fn show_line(
    rt: &impl Print,
    leaves: usize,
    size: u64,
    index: usize,
    rec: &[u8],
    nodes: &[u8; 1216],
) {
    let mode = digest::plain();
    let mut out = output();
    let w = letter_writer::write_letter(&mode, size, index as u64, rec, nodes, &mut out);
    let number = refusals::number(&w);
    let length = w.unwrap_or_default();
    let numbers = [leaves as u64, index as u64, number as u64, length as u64];
    say_numbers(rt, b"letter", &numbers);
    show_letter(rt, size, root_of(size, nodes), &out, length, rec);
}

// The lines of a log.
fn show_log(rt: &impl Print, leaves: usize, size: u64, nodes: &[u8; 1216]) {
    for index in 0..leaves {
        let rec = record_of(index);
        show_line(
            rt,
            leaves,
            size,
            index,
            front(&rec, length_of(index)),
            nodes,
        );
    }
}

pub(crate) fn show_all(rt: &impl Print) {
    let mut nodes = [0u8; 1216];
    let mut size = 0;
    for k in 0..20 {
        size = grow(size, k, &mut nodes);
        show_log(rt, k + 1, size, &nodes);
    }
}
