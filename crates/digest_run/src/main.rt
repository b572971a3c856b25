// Digests at the edges of blocks, chunks and trees, and of pairs of digests, to be compared with the second program's.
#![tactic(auto)]

use digest::Digest;
use runs::given;
use runs::lines::{end_line, say_digest, say_hex, say_number};

// The lengths that are digested.
const LENGTHS: [usize; 10] = [0, 1, 63, 64, 65, 1023, 1024, 1025, 2048, 2049];

// The line of the first n bytes of bytes.
fn show_first(rt: &impl Print, bytes: &[u8; 2049], n: usize) {
    say_number(rt, b"", n as u64);
    say_digest(rt, b" ", given::front(bytes, n));
    end_line(rt);
}

// A line for each length.
fn show_lengths(rt: &impl Print, bytes: &[u8; 2049]) {
    for n in LENGTHS {
        show_first(rt, bytes, n);
    }
}

// The line of two digests, after its label.
fn show_pair(rt: &impl Print, label: &[u8], left: Digest, right: Digest) {
    say_hex(
        rt,
        label,
        digest::digest_of_pair(&digest::plain(), left, right).bytes,
    );
    end_line(rt);
}

// A line for each pair of the digests of no byte and of the byte 0.
fn show_pairs(rt: &impl Print) {
    let mode = digest::plain();
    let none = digest::digest_of(&mode, b"");
    let one = digest::digest_of(&mode, b"\0");
    show_pair(rt, b"pair 0 1 ", none, one);
    show_pair(rt, b"pair 1 0 ", one, none);
    show_pair(rt, b"pair 1 1 ", one, one);
}

fn main(rt: HostRuntime) {
    show_lengths(&rt, &given::filled(0));
    show_pairs(&rt);
}
