// One letter of a log of fifteen records, cut anywhere, with bytes behind it, and with each of its bits flipped: how many get each number.
use crate::logs::{letter_of, log_of, root_of};
use runs::given::front;
use runs::lines::{end_line, say, say_number};

// The bits of a byte.
const BITS: [u8; 8] = [1, 2, 4, 8, 16, 32, 64, 128];

// A letter in the first bytes of a buffer, and what it is checked against.
#[derive(Clone, Copy)]
struct Sent {
    size: u64,
    root: [u8; 32],
    letter: [u8; 400],
    length: usize,
}

impl Sent {
    // The number of the first n bytes.
    fn number(&self, n: usize) -> u32 {
        let mode = digest::plain();
        let letter = front(&self.letter, n);
        refusals::number(&letter_checker::check(&mode, self.size, &self.root, letter))
    }

    // The number of the letter with some bits of one byte flipped.
    fn flipped(&self, at: usize, bits: u8) -> u32 {
        let mut other = *self;
        let b = wire::read_byte(&other.letter, at);
        wire::write_byte(&mut other.letter, at, b ^ bits);
        other.number(self.length)
    }
}

// Counts a number.
fn count(counts: &mut [u64; 16], number: u32) {
    if let Some(times) = counts.get_mut(number as usize) {
        *times = times.wrapping_add(1);
    }
}

// A line for each number that was met.
fn show_counts(rt: &impl Print, label: &[u8], counts: &[u64; 16]) {
    say(rt, label);
    for (number, &times) in counts.iter().enumerate() {
        if 0 < times {
            say_number(rt, b"  ", number as u64);
            say_number(rt, b": ", times);
            end_line(rt);
        }
    }
}

// The first bytes of a letter, each length from one to below another.
fn show_lengths(rt: &impl Print, label: &[u8], sent: &Sent, from: usize, to: usize) {
    let mut counts = [0u64; 16];
    for n in from..to {
        count(&mut counts, sent.number(n));
    }
    show_counts(rt, label, &counts);
}

// Each bit of a letter.
fn show_flips(rt: &impl Print, sent: &Sent) {
    let mut counts = [0u64; 16];
    for at in 0..sent.length {
        for &bits in &BITS {
            count(&mut counts, sent.flipped(at, bits));
        }
    }
    show_counts(rt, b"flipped\n", &counts);
}

pub(crate) fn show_all(rt: &impl Print) {
    let mut nodes = [0u8; 1216];
    let size = log_of(15, &mut nodes);
    let root = root_of(size, &nodes);
    let mut letter = [0u8; 400];
    let length = letter_of(size, 12, &nodes, &mut letter);
    let sent = Sent {
        size,
        root,
        letter,
        length,
    };
    show_lengths(rt, b"cut\n", &sent, 0, length);
    show_lengths(rt, b"longer\n", &sent, 180, 401);
    show_flips(rt, &sent);
}
