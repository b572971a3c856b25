// Every letter of logs of 1 to 9 records, compared with the log: each is found the same, and neither buffer changes.
use crate::logs::{grow, letter_of, show_find};
use runs::given::{front, length_of, record_of};
use runs::lines::say_numbers;

// The line of one letter.
fn show_line(rt: &impl Print, leaves: usize, size: u64, index: usize, nodes: &[u8; 512]) {
    say_numbers(rt, b"letter", &[leaves as u64, index as u64]);
    let mut letter = [0u8; 16640];
    let n = letter_of(size, index, nodes, &mut letter);
    let rec = record_of(index);
    show_find(
        rt,
        size,
        nodes,
        front(&rec, length_of(index)),
        front(&letter, n),
        [80, 80],
    );
}

pub(crate) fn show_all(rt: &impl Print) {
    let mut nodes = [0u8; 512];
    let mut size: u64 = 0;
    for k in 0..9 {
        size = grow(size, k, &mut nodes);
        for index in 0..k + 1 {
            show_line(rt, k + 1, size, index, &nodes);
        }
    }
}
