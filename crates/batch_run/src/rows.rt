// Batches of five records to a log of three: done, and each refusal at the first record, a middle one and the last; lengths that are off; no record.
use crate::given::try_batch;
use runs::given::{first_of, front, record_of};

// The lengths of the log's own records, which are 12 bytes.
const OWN: [u32; 3] = [4, 0, 8];

// One batch to a log of three records: the size that is given, how many joined bytes, the lengths and how many of them, the room.
fn try_row(
    rt: &impl Print,
    mode: &[u8; 36],
    size: u64,
    bytes: usize,
    lengths: [u32; 5],
    count: usize,
    room: usize,
) {
    let records = record_of(0);
    let mut nodes = [60u8; 2848];
    let _ = batch::append_many(mode, 0, front(&records, 12), &OWN, &mut nodes);
    try_batch(
        rt,
        mode,
        size,
        front(&records, bytes),
        first_of(&lengths, count),
        &mut nodes,
        room,
    );
}

// With the room that they want; one byte short of each record.
fn try_rooms(rt: &impl Print, mode: &[u8; 36]) {
    let lengths = [5, 0, 33, 64, 7];
    try_row(rt, mode, 4, 109, lengths, 5, 480);
    try_row(rt, mode, 4, 109, lengths, 5, 223);
    try_row(rt, mode, 4, 109, lengths, 5, 255);
    try_row(rt, mode, 4, 109, lengths, 5, 319);
    try_row(rt, mode, 4, 109, lengths, 5, 351);
    try_row(rt, mode, 4, 109, lengths, 5, 479);
}

// A record of 16,385 bytes at the first place, in the middle and at the last; one of 16,384; too long where the room ends with the record before it,
// with it, and one byte before both.
fn try_longer(rt: &impl Print, mode: &[u8; 36]) {
    try_row(rt, mode, 4, 16385, [16385, 0, 0, 0, 0], 5, 480);
    try_row(rt, mode, 4, 16385, [0, 0, 16385, 0, 0], 5, 480);
    try_row(rt, mode, 4, 16385, [0, 0, 0, 0, 16385], 5, 480);
    try_row(rt, mode, 4, 16385, [1, 0, 0, 0, 16384], 5, 480);
    try_row(rt, mode, 4, 16385, [0, 0, 16385, 0, 0], 5, 256);
    try_row(rt, mode, 4, 16385, [0, 0, 16385, 0, 0], 5, 351);
    try_row(rt, mode, 4, 16385, [0, 0, 16385, 0, 0], 5, 255);
}

// Lengths one off either way, one left out, with 4,294,967,295 among them, right modulo 2^32; the same beside each other refusal.
fn try_sums(rt: &impl Print, mode: &[u8; 36]) {
    try_row(rt, mode, 4, 108, [5, 0, 33, 64, 7], 5, 480);
    try_row(rt, mode, 4, 110, [5, 0, 33, 64, 7], 5, 480);
    try_row(rt, mode, 4, 109, [5, 0, 33, 64, 7], 4, 480);
    try_row(rt, mode, 4, 109, [5, 0, 33, 64, 4294967295], 5, 480);
    try_row(rt, mode, 4, 109, [4294967295, 0, 33, 64, 13], 5, 480);
    try_row(rt, mode, 4, 102, [5, 0, 33, 64, 16385], 5, 0);
    try_row(rt, mode, 8589934591, 109, [4294967295, 0, 33, 64, 13], 5, 0);
    try_row(rt, mode, 8589934590, 109, [4294967295, 0, 33, 64, 13], 5, 0);
}

// No record, with and without room, joined bytes and a log that has room; and records where the log has none, or where there is no such log.
fn try_ends(rt: &impl Print, mode: &[u8; 36]) {
    let lengths = [5, 0, 33, 64, 7];
    try_row(rt, mode, 4, 0, lengths, 0, 480);
    try_row(rt, mode, 4, 0, lengths, 0, 0);
    try_row(rt, mode, 4, 1, lengths, 0, 480);
    try_row(rt, mode, 8589934591, 0, lengths, 0, 0);
    try_row(rt, mode, 8589934591, 109, lengths, 5, 480);
    try_row(rt, mode, 8589934591, 16385, [16385, 0, 0, 0, 0], 5, 0);
    try_row(rt, mode, 8589934590, 0, lengths, 0, 480);
    try_row(rt, mode, 8589934590, 109, lengths, 5, 480);
    try_row(rt, mode, 2, 108, lengths, 5, 480);
}

pub(crate) fn show_all(rt: &impl Print, mode: &[u8; 36]) {
    try_rooms(rt, mode);
    try_longer(rt, mode);
    try_sums(rt, mode);
    try_ends(rt, mode);
}
