// The line of one batch.
use runs::lines::{end_line, say_digest, say_numbers};

// One line: the size, how many joined bytes and lengths there are, and the room; the number, the size and the hash count; the digest of the buffer.
// Hands back the size that is answered: on a refusal the one that was given.
fn show_batch(
    rt: &impl Print,
    mode: &[u8; 36],
    size: u64,
    records: &[u8],
    lengths: &[u32],
    nodes: &mut [u8],
) -> u64 {
    let row = [
        size,
        records.len() as u64,
        lengths.len() as u64,
        nodes.len() as u64,
    ];
    say_numbers(rt, b" ", &row);
    let answer = batch::append_many(mode, size, records, lengths, nodes);
    let number = refusals::number(&answer);
    let a = evidence_log::returned(size, answer);
    say_numbers(rt, b":", &[number as u64, a.size, a.hashes]);
    say_digest(rt, b" ", nodes);
    end_line(rt);
    a.size
}

// The same where only so much of the buffer is lent; 0 where it has less.
pub(crate) fn try_batch(
    rt: &impl Print,
    mode: &[u8; 36],
    size: u64,
    records: &[u8],
    lengths: &[u32],
    nodes: &mut [u8],
    room: usize,
) -> u64 {
    match nodes.get_mut(..room) {
        Some(lent) => show_batch(rt, mode, size, records, lengths, lent),
        None => 0,
    }
}
