// A log of forty records over one buffer, then each refusal, to be compared with the second program's.
#![tactic(auto)]

mod given;
mod lines;

use given::{append_lent, buffer_of, edge_of, root_lent};
use lines::{show_appended, show_digest, show_rooted};
use runs::given::record_of;
use runs::lines::{say, say_number};

// The lengths of the records, over and over.
const LENGTHS: [usize; 11] = [0, 1, 31, 32, 33, 63, 64, 65, 200, 1024, 16384];

// The digests of the nodes and of the bytes beyond the size.
fn show_parts(rt: &impl Print, size: u64, nodes: &[u8]) {
    let mode = digest::plain();
    let at = edge_of(size, nodes.len());
    show_digest(rt, b"  nodes ", digest::digest_of(&mode, &nodes[..at]));
    show_digest(rt, b"  beyond ", digest::digest_of(&mode, &nodes[at..]));
}

// The digests of the two parts, and the root.
fn show_state(rt: &impl Print, size: u64, nodes: &[u8; 2624]) {
    let mode = digest::plain();
    show_parts(rt, size, nodes);
    show_rooted(rt, b"  root ", evidence_log::root(&mode, size, nodes));
}

// Record i, its first n bytes, appended, and the lines of that; the new size.
fn append_next(
    rt: &impl Print,
    size: u64,
    i: usize,
    n: usize,
    nodes: &mut [u8; 2624],
    shown: bool,
) -> u64 {
    let rec = record_of(i);
    let answer = append_lent(size, &rec, n, nodes, 2624);
    let next = evidence_log::returned(size, answer).size;
    if shown {
        say_number(rt, b"append ", i as u64);
        say_number(rt, b", record of length ", n as u64);
        show_appended(rt, b":", size, answer);
        show_state(rt, next, nodes);
    }
    next
}

// Forty records; the size at the end.
fn run(rt: &impl Print, nodes: &mut [u8; 2624], shown: bool) -> u64 {
    let mut size = 0;
    for i in 0..40 {
        size = append_next(rt, size, i, LENGTHS[i % 11], nodes, shown);
    }
    size
}

// The digest of the whole buffer, after its label, as a line of its own, which `say_digest` of `runs` does not make.
fn show_whole(rt: &impl Print, label: &[u8], nodes: &[u8; 2624]) {
    let mode = digest::plain();
    show_digest(rt, label, digest::digest_of(&mode, nodes));
}

// What an append is given.
fn show_given(rt: &impl Print, size: u64, n: usize, lent: usize) {
    say_number(rt, b"size ", size);
    say_number(rt, b", record of length ", n as u64);
    say_number(rt, b", buffer of length ", lent as u64);
    say(rt, b":\n");
}

// One append, and the whole buffer before and after.
fn try_append(rt: &impl Print, size: u64, n: usize, lent: usize, nodes: &mut [u8; 2624]) {
    show_given(rt, size, n, lent);
    show_whole(rt, b"  before ", nodes);
    let rec = record_of(40);
    let answer = append_lent(size, &rec, n, nodes, lent);
    show_appended(rt, b"  append", size, answer);
    show_whole(rt, b"  after ", nodes);
}

// Each refusal: 1, 2, 3, 4; then a record of 16,384 bytes in a buffer that just holds it, and one more.
fn try_appends(rt: &impl Print, nodes: &mut [u8; 2624]) {
    try_append(rt, 2, 0, 2624, nodes);
    try_append(rt, 8589934591, 0, 2624, nodes);
    try_append(rt, 78, 16385, 2624, nodes);
    try_append(rt, 78, 16384, 2527, nodes);
    try_append(rt, 78, 16384, 2528, nodes);
    try_append(rt, 79, 0, 2592, nodes);
}

// One root.
fn try_root(rt: &impl Print, size: u64, lent: usize, nodes: &[u8; 2624]) {
    say_number(rt, b"root of size ", size);
    say_number(rt, b", buffer of length ", lent as u64);
    show_rooted(rt, b": ", root_lent(size, nodes, lent));
}

// Each refusal: 1, 10, 4; then the root, and that of the log as it was before.
fn try_roots(rt: &impl Print, nodes: &[u8; 2624]) {
    try_root(rt, 2, 2624, nodes);
    try_root(rt, 0, 2624, nodes);
    try_root(rt, 81, 2591, nodes);
    try_root(rt, 81, 2592, nodes);
    try_root(rt, 78, 2624, nodes);
}

// The log over a buffer of counting bytes.
fn first_buffer(rt: &impl Print) {
    let mut nodes = buffer_of(1);
    say(rt, b"empty:\n");
    show_state(rt, 0, &nodes);
    run(rt, &mut nodes, true);
    try_appends(rt, &mut nodes);
    try_roots(rt, &nodes);
    show_whole(rt, b"after ", &nodes);
}

// The same records over other bytes: the same nodes and root.
fn other_buffer(rt: &impl Print) {
    let mut nodes = buffer_of(3);
    let size = run(rt, &mut nodes, false);
    say(rt, b"over other bytes:\n");
    show_state(rt, size, &nodes);
}

fn main(rt: HostRuntime) {
    first_buffer(&rt);
    other_buffer(&rt);
}
