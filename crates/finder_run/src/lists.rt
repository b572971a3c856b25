// Lists of 64-byte inputs that are given, compared as the finder compares the log's with the letter's: a pair, and records that differ, are met here.
use crate::logs::{buffer_of, flip, room_of, show_found};
use runs::given::{filled, front, record_of};
use runs::lines::{end_line, say_digest, say_numbers};

// Lists that are the same, and lists that differ at the edges of their inputs.
const OF_BYTES: [[u64; 10]; 14] = [
    [320, 320, 999, 999, 3, 200, 3, 200, 80, 80],
    [320, 320, 999, 999, 3, 200, 3, 200, 64, 64],
    [0, 0, 999, 999, 3, 200, 3, 200, 80, 80],
    [320, 320, 0, 999, 3, 200, 3, 200, 80, 80],
    [320, 320, 63, 999, 3, 200, 3, 200, 80, 80],
    [320, 320, 31, 32, 3, 200, 3, 200, 80, 80],
    [320, 320, 128, 999, 3, 200, 3, 200, 80, 80],
    [320, 320, 191, 999, 3, 200, 3, 200, 80, 80],
    [320, 320, 256, 999, 3, 200, 3, 200, 80, 80],
    [320, 320, 319, 999, 3, 200, 3, 200, 80, 80],
    [320, 320, 192, 64, 3, 200, 3, 200, 80, 80],
    [320, 320, 0, 319, 3, 200, 3, 200, 80, 80],
    [320, 320, 128, 999, 3, 200, 3, 200, 64, 64],
    [320, 320, 128, 999, 3, 200, 3, 199, 80, 80],
];

// Lists of other lengths, records that differ, and buffers too short.
const OF_LENGTHS: [[u64; 10]; 14] = [
    [256, 320, 999, 999, 3, 200, 3, 200, 80, 80],
    [320, 256, 999, 999, 3, 200, 3, 200, 80, 80],
    [320, 256, 256, 999, 3, 200, 3, 200, 80, 80],
    [319, 320, 256, 999, 3, 200, 3, 200, 80, 80],
    [320, 319, 200, 999, 3, 200, 3, 200, 80, 80],
    [63, 63, 0, 999, 3, 200, 3, 200, 80, 80],
    [64, 320, 63, 999, 3, 200, 3, 200, 80, 80],
    [320, 320, 999, 999, 3, 200, 3, 199, 80, 80],
    [320, 320, 999, 999, 3, 200, 2, 200, 80, 80],
    [0, 0, 999, 999, 3, 0, 3, 1, 80, 80],
    [320, 320, 64, 999, 3, 200, 3, 200, 63, 64],
    [320, 320, 64, 999, 3, 200, 3, 200, 64, 63],
    [320, 320, 999, 999, 3, 200, 3, 200, 63, 80],
    [320, 320, 999, 999, 3, 200, 3, 199, 80, 63],
];

// The second list: the first with two bits changed, where there are such bytes.
fn other_list(ours: [u8; 320], one: usize, two: usize) -> [u8; 320] {
    let mut out = ours;
    flip(&mut out, one);
    flip(&mut out, two);
    out
}

// What the comparison makes of two lists and two records, with parts of two buffers: also the digests of both buffers.
fn show_compare(
    rt: &impl Print,
    ours: &[u8],
    theirs: &[u8],
    rec: &[u8],
    other: &[u8],
    lent: [u64; 2],
) {
    let mut first = buffer_of(5);
    let mut second = buffer_of(6);
    let found = difference::compare(
        ours,
        theirs,
        rec,
        other,
        &mut first[..room_of(lent[0])],
        &mut second[..room_of(lent[1])],
    );
    show_found(rt, found);
    say_digest(rt, b" ", &first);
    say_digest(rt, b" ", &second);
    end_line(rt);
}

// One line: what is given, and what the comparison makes of it. The lengths of the two lists in bytes, and two bytes of the second that are flipped;
// the number and the length of the one record and of the other; how much of the two buffers is lent. 999: no byte is flipped.
fn try_list(rt: &impl Print, row: [u64; 10]) {
    say_numbers(rt, b"compare", &row);
    let [
        first,
        second,
        flipped,
        again,
        number,
        length,
        other,
        extent,
        one,
        two,
    ] = row;
    let ours = filled::<320>(1);
    let theirs = other_list(ours, flipped as usize, again as usize);
    let rec = record_of(number as usize);
    let other_rec = record_of(other as usize);
    show_compare(
        rt,
        front(&ours, first as usize),
        front(&theirs, second as usize),
        front(&rec, length as usize),
        front(&other_rec, extent as usize),
        [one, two],
    );
}

pub(crate) fn show_all(rt: &impl Print) {
    for row in OF_BYTES {
        try_list(rt, row);
    }
    for row in OF_LENGTHS {
        try_list(rt, row);
    }
}
