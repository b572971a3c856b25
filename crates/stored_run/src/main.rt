// Stored nodes at the edges, written, edited and read, to be compared with the second program's.
#![tactic(auto)]

ghost use Rattle.std.specs.Prelude.{◌≡◌, ℕ, ◌≤◌};
ghost use Rattle.refusals.specs.Numbers.{number_in, outcome_by};
ghost use Rattle.digest.specs.Digest.{digest_in};
ghost use Rattle.stored.specs.Read.{read_outcome};

use refusals::Refused;
use runs::given::{fill, filled, front};
use runs::lines::{end_line, say, say_digest, say_hex, say_number, say_numbers};
use stored::{Node, Reading};

// The most bytes that are lent, enough for a leaf whose record is one byte too long.
const ROOM: usize = 16422;

// A place, and the bits that are changed in the byte there.
type Flip = (usize, u8);

// No bit is changed.
const NONE: Flip = (0, 0);

// What a caller that wants a leaf learns: the length of its record, 0 where it is an inner node.
fn leaf_length(mode: &[u8; 36], bytes: &[u8]) -> Result<usize, Refused>
    ensures number { number_in result ≡ (read_outcome (digest_in mode.now) bytes.now).number }
    ensures length { outcome_by {X = ℕ} (λ number. 0) (λ length. length) result
        ≡ (read_outcome (digest_in mode.now) bytes.now).length }
{
    let reading = stored::read_node(mode, bytes)?;
    let Node::Leaf(length) = reading.node else {
        return Ok(0);
    };
    Ok(length)
}

// A node that was read, or that there is none, as it is printed, and the digest that is handed back.
fn say_read(rt: &impl Print, read: Result<Reading, Refused>) {
    match read.map(|reading| reading.node) {
        Ok(Node::Inner) => say(rt, b" inner"),
        Ok(Node::Leaf(_)) => say(rt, b" leaf"),
        Err(_) => say(rt, b" none"),
    };
    say_hex(rt, b" ", stored::digest_named(read));
}

// A line on what is read in bytes: their length; the number, the kind and the digest; the record's length, and the plain digest of the part that is
// handed out, which beside a refusal is that of no bytes.
fn show_read(rt: &impl Print, mode: &[u8; 36], bytes: &[u8]) {
    let wanted = leaf_length(mode, bytes);
    say_numbers(
        rt,
        b"  read",
        &[bytes.len() as u64, refusals::number(&wanted) as u64],
    );
    say_read(rt, stored::read_node(mode, bytes));
    say_number(rt, b" ", wanted.unwrap_or_default() as u64);
    say_digest(rt, b" ", stored::record_of(mode, bytes));
    end_line(rt);
}

// The end of a line on what was written: the number, the length, the digest of as many bytes, that of the buffer. Then what is read there.
fn show_written(rt: &impl Print, written: Result<usize, Refused>, out: &[u8]) {
    let length = written.unwrap_or_default();
    say_numbers(rt, b"", &[refusals::number(&written) as u64, length as u64]);
    say_digest(rt, b" ", front(out, length));
    say_digest(rt, b" ", out);
    end_line(rt);
    if written.is_ok() {
        show_read(rt, &digest::plain(), front(out, length));
    }
}

// A line on writing the first n bytes' leaf into the first room bytes of a buffer: both lengths, and the digest of those bytes before.
fn try_leaf(rt: &impl Print, bytes: &[u8], n: usize, out: &mut [u8], room: usize) {
    let Some(out) = out.get_mut(..room) else {
        return;
    };
    let rec = front(bytes, n);
    say_numbers(rt, b"leaf", &[rec.len() as u64, out.len() as u64]);
    say_digest(rt, b" ", out);
    show_written(
        rt,
        stored_writer::write_leaf(&digest::plain(), rec, out),
        out,
    );
}

// A line on writing an inner node into the first room bytes of a buffer: the length, and the digest of those bytes before.
fn try_inner(rt: &impl Print, digest: [u8; 32], out: &mut [u8], room: usize) {
    let Some(out) = out.get_mut(..room) else {
        return;
    };
    say_number(rt, b"inner ", out.len() as u64);
    say_digest(rt, b" ", out);
    show_written(rt, stored_writer::write_inner(digest, out), out);
}

// Reads the first n bytes of a node with this flag and stated record length. It and the others that are marked so are not opened where they are called:
// their buffers would all lie in the frame of `main`.
#[inline(never)]
fn try_node(rt: &impl Print, flag: u8, stated: u32, n: usize) {
    let mut node = [0; ROOM];
    fill(0, &mut node);
    wire::write_byte(&mut node, 0, flag);
    wire::write4(&mut node, 33, stated);
    say_numbers(rt, b"node", &[flag as u64, stated as u64]);
    end_line(rt);
    show_read(rt, &digest::plain(), front(&node, n));
}

// Leaves with records of several lengths; the last record is one byte too long.
fn try_lengths(rt: &impl Print, bytes: &[u8], out: &mut [u8]) {
    for n in [0, 1, 31, 200, 16384, 16385] {
        try_leaf(rt, bytes, n, out, ROOM);
    }
}

// Buffers of the exact length and one byte short of it. The first refusal that applies: a record too long, a buffer too short.
fn try_rooms(rt: &impl Print, bytes: &[u8], out: &mut [u8]) {
    for (n, room) in [(200, 237), (200, 236), (16384, 16420), (16385, 16421)] {
        try_leaf(rt, bytes, n, out, room);
    }
    let digest = wire::read_digest(bytes, 100);
    for room in [ROOM, 33, 32] {
        try_inner(rt, digest, out, room);
    }
}

// An inner node; leaves with a record of one byte and of 16,384 that lie about their digest: 18. Then each refusal before that, of nodes that lie
// too: 11 for its four causes, 3, 11 for the exact length.
fn try_nodes(rt: &impl Print) {
    for (flag, stated, n) in [
        (0, 0, 33),
        (1, 1, 38),
        (1, 16384, 16421),
        (0, 0, 32),
        (2, 0, 33),
        (0, 0, 34),
        (1, 0, 36),
        (1, 16385, ROOM),
        (1, 1, 37),
    ] {
        try_node(rt, flag, stated, n);
    }
}

// A mode: plain, or keyed by the key of the published figures.
fn mode_of(keyed: bool) -> [u8; 36] {
    if keyed {
        return digest::keyed(b"whats the Elvish word for friend").unwrap();
    }
    digest::plain()
}

// The leaf of the first n counting bytes over the front of a buffer, in which bits of two bytes are changed then.
#[inline(never)]
fn edit(keyed: bool, n: usize, flips: [Flip; 2], node: &mut [u8; ROOM]) {
    let mut bytes = [0; ROOM];
    fill(0, &mut bytes);
    let _ = stored_writer::write_leaf(&mode_of(keyed), front(&bytes, n), node);
    for (at, bits) in flips {
        if let Some(b) = node.get_mut(at) {
            *b ^= bits;
        }
    }
}

// A line on such a leaf: its record's length, and each place with the bits that are changed there. Then what is read in its first bytes.
#[inline(never)]
fn try_edit(rt: &impl Print, keyed: bool, n: usize, length: usize, flips: [Flip; 2]) {
    let [(at, bits), (other, more)] = flips;
    say_numbers(
        rt,
        b"edit",
        &[n as u64, at as u64, bits as u64, other as u64, more as u64],
    );
    end_line(rt);
    let mut node = [0; ROOM];
    fill(0, &mut node);
    edit(keyed, n, flips, &mut node);
    show_read(rt, &mode_of(keyed), front(&node, length));
}

// The leaf of n bytes: true; then edited in the flag, in the first byte of the digest and in the last, in the record length at both ends, in the
// first byte of the record and in the last, in digest and record. Behind a record of no bytes an edit is not seen.
fn try_regions(rt: &impl Print, keyed: bool, n: usize)
    requires { n ≤ 16384 }
{
    let last = 36 + n;
    for flips in [
        [NONE, NONE],
        [(0, 1), NONE],
        [(0, 2), NONE],
        [(1, 128), NONE],
        [(32, 1), NONE],
        [(33, 128), NONE],
        [(36, 1), NONE],
        [(37, 128), NONE],
        [(last, 1), NONE],
        [(32, 1), (last, 1)],
    ] {
        try_edit(rt, keyed, n, last + 1, flips);
    }
}

// A leaf that lies about its digest and has another fault as well, which comes first: 11 for under 33 bytes, for the flag, for an inner node not of
// 33, for a leaf under 37; 3; 11 for the exact length, by the record length, by a byte less and by a byte more.
fn try_orders(rt: &impl Print) {
    for (length, other) in [
        (32, NONE),
        (38, (0, 2)),
        (38, (0, 1)),
        (36, NONE),
        (38, (33, 128)),
        (38, (36, 1)),
        (37, NONE),
        (39, NONE),
    ] {
        try_edit(rt, false, 1, length, [(1, 128), other]);
    }
}

// A leaf of one mode read in another or in its own, and an inner node, whose digest is of neither.
#[inline(never)]
fn try_mode(rt: &impl Print, of: bool, keyed: bool) {
    let mode = mode_of(keyed);
    say(rt, b"mode 200\n");
    let mut node = [0; ROOM];
    fill(0, &mut node);
    edit(of, 200, [NONE, NONE], &mut node);
    show_read(rt, &mode, front(&node, 237));
    fill(0, &mut node);
    show_read(rt, &mode, front(&node, 33));
}

// Leaves plain and keyed, edited in every region, and in the order; then each read in its own mode and in the other one.
fn try_edits(rt: &impl Print) {
    try_regions(rt, false, 0);
    try_regions(rt, false, 1);
    try_regions(rt, false, 1024);
    try_regions(rt, false, 16384);
    try_orders(rt);
    try_regions(rt, true, 1024);
    for (of, keyed) in [(false, false), (false, true), (true, false), (true, true)] {
        try_mode(rt, of, keyed);
    }
}

fn main(rt: HostRuntime) {
    let bytes = filled::<ROOM>(0);
    let mut out = filled::<ROOM>(0);
    try_lengths(&rt, &bytes, &mut out);
    try_rooms(&rt, &bytes, &mut out);
    try_nodes(&rt);
    try_edits(&rt);
}
