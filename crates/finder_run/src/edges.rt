// The letter of index 3 of a log of seven records, and each refusal of the finder: the nodes, the log's own record, what the letter states, its
// bytes and the buffers are changed. A refusal changes neither buffer. The path goes from node 6 over node 5 to the leaf 4, beside nodes 2 and 3;
// 9 and 10 are the other peaks.
use crate::logs::{flip, grow, letter_of, show_find};
use runs::given::{front, record_of, restate};
use runs::lines::say_numbers;

// Done, then by 1, 10, 4, 7 (under 20), 8, 5.
const OF_LOGS: [[u64; 12]; 7] = [
    [11, 352, 999, 3, 200, 11, 3, 200, 316, 999, 64, 64],
    [2, 352, 999, 3, 200, 11, 3, 200, 316, 999, 80, 80],
    [0, 352, 999, 3, 200, 11, 3, 200, 316, 999, 80, 80],
    [11, 351, 999, 3, 200, 11, 3, 200, 316, 999, 80, 80],
    [11, 352, 999, 3, 200, 11, 3, 200, 19, 999, 80, 80],
    [11, 352, 999, 3, 200, 4, 3, 200, 316, 999, 80, 80],
    [11, 352, 999, 3, 200, 11, 7, 200, 316, 999, 80, 80],
];

// By 3, 7 (exact), 9, then 3 and 13 for the log's own record, 14, 6 for each buffer.
const OF_LETTERS: [[u64; 12]; 8] = [
    [11, 352, 999, 3, 200, 11, 3, 16385, 316, 999, 80, 80],
    [11, 352, 999, 3, 200, 11, 3, 200, 315, 999, 80, 80],
    [11, 352, 999, 3, 200, 11, 3, 200, 316, 20, 80, 80],
    [11, 352, 999, 3, 16385, 11, 3, 200, 316, 999, 80, 80],
    [11, 352, 999, 2, 200, 11, 3, 200, 316, 999, 80, 80],
    [11, 352, 160, 3, 200, 11, 3, 200, 316, 999, 80, 80],
    [11, 352, 999, 3, 200, 11, 3, 200, 316, 999, 63, 64],
    [11, 352, 999, 3, 200, 11, 3, 200, 316, 999, 64, 63],
];

// The nodes of the log.
fn edge_nodes() -> [u8; 512] {
    let mut nodes = [0u8; 512];
    let mut size: u64 = 0;
    for k in 0..7 {
        size = grow(size, k, &mut nodes);
    }
    nodes
}

// The nodes with a byte flipped.
fn damaged(at: usize) -> [u8; 512] {
    let mut out = edge_nodes();
    flip(&mut out, at);
    out
}

// The letter as it states another size, index and record length, with a byte flipped.
fn restated(named: u64, index: u64, stated: u64, at: usize) -> [u8; 400] {
    let mut out = [0u8; 400];
    letter_of(11, 3, &edge_nodes(), &mut out);
    restate(&mut out, named, index, stated);
    flip(&mut out, at);
    out
}

// One line: what is given, and what the finder makes of it. The size, how much of the nodes is lent, and the byte of them that is flipped; the number
// and the length of the log's own record; the size, the index and the record length that the letter states, its length, and the byte of it that is
// flipped; how much of the two buffers is lent. 999: no byte is flipped.
fn try_call(rt: &impl Print, row: [u64; 12]) {
    say_numbers(rt, b"find", &row);
    let [
        size,
        lent,
        spoilt,
        number,
        length,
        named,
        index,
        stated,
        extent,
        flipped,
        one,
        two,
    ] = row;
    let given = damaged(spoilt as usize);
    let rec = record_of(number as usize);
    let shown = restated(named, index, stated, flipped as usize);
    show_find(
        rt,
        size,
        front(&given, lent as usize),
        front(&rec, length as usize),
        front(&shown, extent as usize),
        [one, two],
    );
}

pub(crate) fn show_all(rt: &impl Print) {
    for row in OF_LOGS {
        try_call(rt, row);
    }
    for row in OF_LETTERS {
        try_call(rt, row);
    }
}
