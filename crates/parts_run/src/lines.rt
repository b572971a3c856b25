// The line of a state: its numbers, two words of its stack, its block, and what it ends in.
use parts::Parts;
use refusals::Refused;
use runs::lines::{end_line, say_digest, say_hex, say_number, say_numbers};

// What a state ends in: the number and the digest, zeros where it is refused; and the end of the line.
pub(crate) fn show_end(rt: &impl Print, s: Parts) {
    let answer = parts::end(s);
    say_number(rt, b" ", refusals::number(&answer) as u64);
    say_hex(rt, b" ", answer.unwrap_or_default().bytes);
    end_line(rt);
}

// Of a stack the first word of its second place, and its last of all.
fn show_places(rt: &impl Print, stack: [u32; 240]) {
    let words = [stack[8] as u64, stack[239] as u64];
    say_numbers(rt, b"", &words);
}

// What came of a part: the number, the numbers of the state that there is then, two words of its stack, the digest of its block, and what it ends in.
pub(crate) fn show_added(rt: &impl Print, state: Parts, answer: Result<Parts, Refused>) {
    let number = refusals::number(&answer);
    let s = parts::state_after(state, answer);
    let numbers = [
        number as u64,
        s.total,
        s.held,
        s.stacked as u64,
        s.keyed as u64,
    ];
    say_numbers(rt, b":", &numbers);
    let stack = s.stack;
    show_places(rt, stack);
    let block = s.block;
    say_digest(rt, b" ", &block);
    show_end(rt, s);
}
