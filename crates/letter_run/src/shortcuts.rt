// The shortcuts that lose a match: letters that pass where the size is taken from the letter, checked against the true size and against their own;
// and the shortest letter.
use crate::logs::{log_of, root_of, show_checked};
use runs::given::{front, record_of};
use runs::lines::{end_line, say_numbers};

// A letter with a record of n bytes and what follows it.
fn letter_of(named: u64, index: u64, rec: &[u8], n: u32, items: &[u8]) -> [u8; 100] {
    let mut out = [0u8; 100];
    wire::write8(&mut out, 0, named);
    wire::write8(&mut out, 8, index);
    wire::write4(&mut out, 16, n);
    wire::write_run(&mut out, 20, rec);
    wire::write_run(&mut out, 20 + n as usize, items);
    out
}

// One line: the size that is trusted, the size that the letter names, and what the checker makes of it.
fn show_check(rt: &impl Print, label: &[u8], size: u64, root: [u8; 32], letter: &[u8]) {
    let mode = digest::plain();
    let numbers = [size, wire::read8(letter, 0)];
    say_numbers(rt, label, &numbers);
    show_checked(rt, b":", letter_checker::check(&mode, size, &root, letter));
    end_line(rt);
}

// Against the true size; the same, where the letter names that too; against the size that it names.
fn show_checks(
    rt: &impl Print,
    label: &[u8],
    size: u64,
    root: [u8; 32],
    letter: [u8; 100],
    n: usize,
) {
    show_check(rt, label, size, root, front(&letter, n));
    let mut other = letter;
    wire::write8(&mut other, 0, size);
    show_check(rt, label, size, root, front(&other, n));
    show_check(rt, label, wire::read8(&letter, 0), root, front(&letter, n));
}

// The last record of a three-record log as index 1 of two: its item is the peak of the two others.
fn show_last_of_three(rt: &impl Print, size: u64, nodes: &[u8; 1216]) {
    let rec = record_of(2);
    let letter = letter_of(3, 1, front(&rec, 31), 31, &wire::read_digest(nodes, 64));
    show_checks(
        rt,
        b"last of three as second of two",
        size,
        root_of(size, nodes),
        letter,
        83,
    );
}

// The root of two leaves as that of a one-leaf log whose record is the two leaf digests.
fn show_two_as_one(rt: &impl Print, size: u64, nodes: &[u8; 1216]) {
    let letter = letter_of(1, 0, front(nodes, 64), 64, b"");
    show_checks(
        rt,
        b"two leaf digests as one record",
        size,
        root_of(size, nodes),
        letter,
        84,
    );
}

// The shortest letter, for one empty record: its root is the digest of empty input.
fn show_whole(rt: &impl Print) {
    let mode = digest::plain();
    let mut letter = [0u8; 20];
    letter[7] = 1;
    let root = digest::digest_of(&mode, b"").bytes;
    show_checked(
        rt,
        b"one empty record:",
        letter_checker::check(&mode, 1, &root, &letter),
    );
    end_line(rt);
}

pub(crate) fn show_all(rt: &impl Print) {
    let mut three = [0u8; 1216];
    let size3 = log_of(3, &mut three);
    show_last_of_three(rt, size3, &three);
    let mut two = [0u8; 1216];
    let size2 = log_of(2, &mut two);
    show_two_as_one(rt, size2, &two);
    show_whole(rt);
}
