// The logs that letters are of, what is written and checked of them, and how an answer is printed.
use letter::Fields;
use refusals::Refused;
use runs::given::{filled, front, length_of, record_of};
use runs::lines::say_numbers;

// Record k appended to a log of at most 20; the new size. finder_run has this and the letter of an index over a buffer of nine: no crate that both
// programs see has logs.
pub(crate) fn grow(size: u64, k: usize, nodes: &mut [u8; 1216]) -> u64 {
    let mode = digest::plain();
    let rec = record_of(k);
    let answer = evidence_log::append(&mode, size, front(&rec, length_of(k)), nodes);
    evidence_log::returned(size, answer).size
}

// A log of the first n records; its size.
pub(crate) fn log_of(n: usize, nodes: &mut [u8; 1216]) -> u64 {
    let mut size = 0;
    for k in 0..n {
        size = grow(size, k, nodes);
    }
    size
}

// The root of a log.
pub(crate) fn root_of(size: u64, nodes: &[u8; 1216]) -> [u8; 32] {
    let mode = digest::plain();
    evidence_log::root(&mode, size, nodes)
        .unwrap_or_default()
        .bytes
}

// The letter of an index, in the first bytes of an output; its length.
pub(crate) fn letter_of(size: u64, index: usize, nodes: &[u8; 1216], out: &mut [u8]) -> usize {
    let mode = digest::plain();
    let rec = record_of(index);
    let rec = front(&rec, length_of(index));
    letter_writer::write_letter(&mode, size, index as u64, rec, nodes, out).unwrap_or_default()
}

// An output before a letter is written.
pub(crate) fn output() -> [u8; 16640] {
    filled(9)
}

// 1 where a byte of an output behind the first n has changed, else 0.
pub(crate) fn changed_behind(out: &[u8; 16640], n: usize) -> u64 {
    let mut before = output();
    wire::write_run(&mut before, 0, front(out, n));
    wire::differ(out, &before) as u64
}

// A label, the number, the index, and where the record lies in the letter. A refusal has 0 for these.
pub(crate) fn show_checked(rt: &impl Print, label: &[u8], c: Result<Fields, Refused>) {
    let number = refusals::number(&c);
    let f = c.unwrap_or_default();
    let numbers = [number as u64, f.index, f.start as u64, f.length as u64];
    say_numbers(rt, label, &numbers);
}
