// The logs that are compared with letters, the two buffers that are lent, and what the finder makes of a letter, printed.
ghost use Rattle.std.specs.Prelude.{◌≤◌};

use difference::Finding;
use refusals::Refused;
use runs::given::{filled, front, length_of, record_of};
use runs::lines::{end_line, say_numbers};

// Record k appended to a log of at most nine; the new size. letter_run has this and the letter of an index over a buffer of twenty: no crate that both
// programs see has logs.
pub(crate) fn grow(size: u64, k: usize, nodes: &mut [u8; 512]) -> u64 {
    let mode = digest::plain();
    let rec = record_of(k);
    let answer = evidence_log::append(&mode, size, front(&rec, length_of(k)), nodes);
    evidence_log::returned(size, answer).size
}

// The letter of an index, in the first bytes of an output; its length.
pub(crate) fn letter_of(size: u64, index: usize, nodes: &[u8; 512], out: &mut [u8]) -> usize {
    let mode = digest::plain();
    let rec = record_of(index);
    letter_writer::write_letter(
        &mode,
        size,
        index as u64,
        front(&rec, length_of(index)),
        nodes,
        out,
    )
    .unwrap_or_default()
}

// One bit of a byte changed, where there is such a byte.
pub(crate) fn flip(bytes: &mut [u8], at: usize) {
    if let Some(b) = bytes.get_mut(at) {
        *b ^= 1;
    }
}

// A buffer of 80 bytes before a call: the first 64 are for an input.
pub(crate) fn buffer_of(i: usize) -> [u8; 80] {
    filled(i)
}

// The number of bytes that is lent of a buffer: n, or 80 where it has fewer.
pub(crate) fn room_of(n: u64) -> usize
    ensures { result ≤ 80 }
{
    n.min(80) as usize
}

// The number, and what is found: 1 for "same", 2 for "records", 3 for "pair", 0 for nothing.
pub(crate) fn show_found(rt: &impl Print, found: Result<Finding, Refused>) {
    let number = refusals::number(&found);
    let finding = found.map(u32::from).unwrap_or_default();
    say_numbers(rt, b":", &[number as u64, finding as u64]);
}

// 1 where buffer i has changed since it was made, else 0.
fn changed(bytes: &[u8; 80], i: usize) -> u64 {
    wire::differ(bytes, &buffer_of(i)) as u64
}

// What the finder makes of a letter, with parts of two buffers, and whether each of the two has changed.
pub(crate) fn show_find(
    rt: &impl Print,
    size: u64,
    nodes: &[u8],
    rec: &[u8],
    letter: &[u8],
    lent: [u64; 2],
) {
    let mode = digest::plain();
    let mut first = buffer_of(5);
    let mut second = buffer_of(6);
    let found = letter_finder::find(
        &mode,
        size,
        nodes,
        rec,
        letter,
        &mut first[..room_of(lent[0])],
        &mut second[..room_of(lent[1])],
    );
    show_found(rt, found);
    say_numbers(rt, b" differ", &[changed(&first, 5), changed(&second, 6)]);
    end_line(rt);
}
