// What the calls are given: rows of 22 numbers of eight bytes, big-endian, and parts of the input that a row names by where they start and how many
// bytes they have.
ghost use Rattle.std.specs.Prelude.{◌≤◌};

use runs::given::front;

// The smaller of two.
pub(crate) fn at_most(n: u64, most: usize) -> usize
    ensures { result ≤ most }
{
    n.min(most as u64) as usize
}

// A number of a row.
pub(crate) fn number(row: &[u8], i: u8) -> u64 {
    wire::read8(row, 8 * i as usize)
}

// The part of the input that starts where one number of a row says, and has as many bytes as the next one.
pub(crate) fn part<'a>(input: &'a [u8], row: &[u8], i: u8) -> &'a [u8] {
    let start = at_most(number(row, i), input.len());
    let rest = &input[start..];
    front(rest, wire::read8(row, 8 * i as usize + 8) as usize)
}

// The mode: plain without a key, and for one that is refused the keyed mode of zeros.
pub(crate) fn mode_of(key: &[u8]) -> [u8; 36] {
    if key.is_empty() {
        return digest::plain();
    }
    digest::mode_of(digest::keyed(key))
}

// The indexes in a part, eight bytes each. One function for these and the lengths would be handed the type, the width and the reader.
pub(crate) fn indexes_in(part: &[u8]) -> [u64; 257] {
    let mut out = [0u64; 257];
    for (i, x) in out.iter_mut().enumerate() {
        *x = wire::read8(part, 8 * i);
    }
    out
}

// The lengths in a part, four bytes each.
pub(crate) fn lengths_in(part: &[u8]) -> [u32; 257] {
    let mut out = [0u32; 257];
    for (i, x) in out.iter_mut().enumerate() {
        *x = wire::read4(part, 4 * i);
    }
    out
}
