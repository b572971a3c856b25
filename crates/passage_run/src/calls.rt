// The calls, and what they answer, printed. A row has: where eight parts start and how long they are, which are the words that begin its line, the
// key, the indexes, the joined records, their lengths, the nodes, the root, the letter; the size; the room for a letter; which record is handed out;
// how many places there are for indexes; how much of the finder's two buffers is lent.
use crate::given::{at_most, indexes_in, lengths_in, mode_of, number, part};
use findings::Named;
use refusals::Refused;
use runs::given::{first_of, front};
use runs::lines::{end_line, say, say_digest, say_number, say_numbers};

// One more number of a line.
fn word(rt: &impl Print, n: u64) {
    say_number(rt, b" ", n);
}

// A number of RULES 2, and what is answered with it.
fn say_two(rt: &impl Print, label: &[u8], refusal: u32, answer: u64) {
    say_number(rt, label, refusal as u64);
    word(rt, answer);
}

// The digest of what is lent of an output, and of eight bytes behind it.
fn show_out(rt: &impl Print, out: &[u8; 16640], room: u64) {
    let n = room.wrapping_add(8);
    say_digest(rt, b" ", front(out, n as usize));
}

// The writer: the number and the length, and the digest of its output.
fn show_write(rt: &impl Print, mode: &[u8; 36], input: &[u8], row: &[u8]) {
    let indexes = indexes_in(part(input, row, 4));
    let lengths = lengths_in(part(input, row, 8));
    let mut out = [60u8; 16640];
    let room = at_most(number(row, 17), 16640);
    let w = passage_writer::write_passage(
        mode,
        number(row, 16),
        first_of(&indexes, at_most(number(row, 5) / 8, 257)),
        part(input, row, 6),
        first_of(&lengths, at_most(number(row, 9) / 4, 257)),
        part(input, row, 10),
        &mut out[..room],
    );
    let length = w.unwrap_or_default();
    say_two(rt, b": write ", refusals::number(&w), length as u64);
    show_out(rt, &out, number(row, 17));
}

// The checker: the number, and how many records there are.
fn show_check(rt: &impl Print, mode: &[u8; 36], size: u64, root: &[u8], letter: &[u8]) {
    let c = passage_checker::check(mode, size, root, letter);
    say_two(rt, b" check ", refusals::number(&c), c.unwrap_or_default());
}

// Record k: the number, its index and place; its length and first bytes as it is handed out.
fn show_entry(rt: &impl Print, mode: &[u8; 36], size: u64, root: &[u8], letter: &[u8], k: u64) {
    let answer = passage_records::entry(mode, size, root, letter, k);
    let (index, start, length) = passage_records::place_of(answer);
    say_two(rt, b" entry ", refusals::number(&answer), index);
    word(rt, start as u64);
    word(rt, length as u64);
    let rec = passage_records::record_in(mode, size, root, letter, k);
    word(rt, rec.len() as u64);
    word(rt, wire::read8(rec, 0));
}

// The places of a list that are filled, and one more.
fn show_list(rt: &impl Print, list: &[u64; 257], count: u64) {
    say_numbers(
        rt,
        b" ",
        first_of(list, at_most(count.wrapping_add(1), 257)),
    );
}

// All records, into three lists, the first of which has so many places: the number, how many records there are, and the lists.
fn show_entries(
    rt: &impl Print,
    mode: &[u8; 36],
    size: u64,
    root: &[u8],
    letter: &[u8],
    places: u64,
) {
    let mut indexes = [9u64; 257];
    let mut starts = [9u64; 257];
    let mut lengths = [9u64; 257];
    let room = at_most(places, 257);
    let c = passage_records::entries(
        mode,
        size,
        root,
        letter,
        &mut indexes[..room],
        &mut starts,
        &mut lengths,
    );
    let count = c.unwrap_or_default();
    say_two(rt, b" entries ", refusals::number(&c), count);
    show_list(rt, &indexes, count);
    show_list(rt, &starts, count);
    show_list(rt, &lengths, count);
}

// The number, what is found (1 for "same", 2 for "records", 3 for "pair"), the index; whether the two buffers differ then.
fn show_found(rt: &impl Print, f: Result<Named, Refused>, first: &[u8; 80], second: &[u8; 80]) {
    let found = f.map(u32::from).unwrap_or_default();
    let index = f.map(|named| named.index()).unwrap_or_default();
    say_two(rt, b" find ", refusals::number(&f), found as u64);
    word(rt, index);
    word(rt, wire::differ(first, second) as u64);
}

// The finder, with so much of two buffers.
fn show_find(rt: &impl Print, mode: &[u8; 36], input: &[u8], row: &[u8]) {
    let lengths = lengths_in(part(input, row, 8));
    let mut first = [60u8; 80];
    let mut second = [60u8; 80];
    let one = at_most(number(row, 20), 80);
    let two = at_most(number(row, 21), 80);
    let f = passage_finder::find(
        mode,
        number(row, 16),
        part(input, row, 10),
        part(input, row, 6),
        first_of(&lengths, at_most(number(row, 9) / 4, 257)),
        part(input, row, 14),
        &mut first[..one],
        &mut second[..two],
    );
    show_found(rt, f, &first, &second);
}

// The line of a row.
pub(crate) fn show_row(rt: &impl Print, input: &[u8], row: &[u8]) {
    say(rt, part(input, row, 0));
    let mode = mode_of(part(input, row, 2));
    show_write(rt, &mode, input, row);
    let root = part(input, row, 12);
    let letter = part(input, row, 14);
    let size = number(row, 16);
    show_check(rt, &mode, size, root, letter);
    show_entry(rt, &mode, size, root, letter, number(row, 18));
    show_entries(rt, &mode, size, root, letter, number(row, 19));
    show_find(rt, &mode, input, row);
    end_line(rt);
}
