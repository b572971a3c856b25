// Lists of 0 to 40 lengths: to an empty log, with seven more behind them, and all forty in a buffer that ends one byte before the room of each.
use crate::given::try_batch;
use runs::given::{first_of, front, record_of};

// How many bytes the first seven records have.
const SEVEN: u64 = 229;

// How many all forty have.
const FORTY: u64 = 2410;

// The lengths of forty records: 33 each, but for some.
fn forty() -> [u32; 40] {
    let mut out = [33u32; 40];
    out[0] = 0;
    out[3] = 64;
    out[7] = 65;
    out[12] = 200;
    out[13] = 0;
    out[30] = 1024;
    out[31] = 1;
    out[39] = 0;
    out
}

// One byte less than so many nodes take, where the buffer holds them; none for no node.
fn one_less(size: u64) -> usize {
    if 89 < size {
        return 0;
    }
    (32 * size as usize).saturating_sub(1)
}

// The line of a batch of the first k records, which have so many bytes.
fn append_first(
    rt: &impl Print,
    mode: &[u8; 36],
    size: u64,
    k: usize,
    bytes: u64,
    nodes: &mut [u8; 2848],
    room: usize,
) -> u64 {
    let records = record_of(0);
    let lengths = forty();
    try_batch(
        rt,
        mode,
        size,
        front(&records, bytes as usize),
        first_of(&lengths, k),
        nodes,
        room,
    )
}

// The first k to an empty log; the first seven behind them; then all forty where the last byte for k is missing.
fn show_list(rt: &impl Print, mode: &[u8; 36], k: usize, bytes: u64) {
    let mut nodes = [60u8; 2848];
    let size = append_first(rt, mode, 0, k, bytes, &mut nodes, 2848);
    append_first(rt, mode, size, 7, SEVEN, &mut nodes, 2848);
    let mut other = [60u8; 2848];
    append_first(rt, mode, 0, 40, FORTY, &mut other, one_less(size));
}

// Each k from 0 to 40.
pub(crate) fn show_all(rt: &impl Print, mode: &[u8; 36]) {
    let mut bytes: u64 = 0;
    for (k, &n) in forty().iter().enumerate() {
        show_list(rt, mode, k, bytes);
        bytes = bytes.wrapping_add(n as u64);
    }
    show_list(rt, mode, 40, bytes);
}
