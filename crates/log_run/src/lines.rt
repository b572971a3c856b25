// What is printed of a log: answers and digests.
use digest::Digest;
use evidence_log::Appended;
use refusals::Refused;
use runs::lines::{end_line, say_hex, say_number, say_numbers};

// A label, a digest in hexadecimal, and the end of the line.
pub(crate) fn show_digest(rt: &impl Print, label: &[u8], d: Digest) {
    say_hex(rt, label, d.bytes);
    end_line(rt);
}

// A label, the number, the size and the hash count, and the end of the line. A refusal has the size that was given, and count 0.
pub(crate) fn show_appended(
    rt: &impl Print,
    label: &[u8],
    size: u64,
    answer: Result<Appended, Refused>,
) {
    let number = refusals::number(&answer);
    let a = evidence_log::returned(size, answer);
    say_numbers(rt, label, &[number as u64, a.size, a.hashes]);
    end_line(rt);
}

// A label, the number and the root, which is all zero on a refusal.
pub(crate) fn show_rooted(rt: &impl Print, label: &[u8], answer: Result<Digest, Refused>) {
    let number = refusals::number(&answer);
    say_number(rt, label, number as u64);
    show_digest(rt, b" ", answer.unwrap_or_default());
}
