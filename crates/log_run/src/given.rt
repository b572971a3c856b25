// What the log is given: buffers, and calls on their front parts.
ghost use Rattle.std.specs.Prelude.{◌≤◌};

use digest::Digest;
use evidence_log::Appended;
use refusals::Refused;
use runs::given::front;

// A buffer of 82 digests before any append: byte k is k times the step, mod 256.
pub(crate) fn buffer_of(step: u8) -> [u8; 2624] {
    let mut out = [0u8; 2624];
    let mut b: u8 = 0;
    for x in &mut out {
        *x = b;
        b = b.wrapping_add(step);
    }
    out
}

// Where the bytes beyond the size begin.
pub(crate) fn edge_of(size: u64, room: usize) -> usize
    ensures { result ≤ room }
{
    if size <= 82 {
        room.min(32 * size as usize)
    } else {
        room
    }
}

// An append of the first n bytes of rec, where the first `lent` bytes of the buffer are lent.
pub(crate) fn append_lent(
    size: u64,
    rec: &[u8],
    n: usize,
    nodes: &mut [u8],
    lent: usize,
) -> Result<Appended, Refused> {
    let mode = digest::plain();
    let room = lent.min(nodes.len());
    evidence_log::append(&mode, size, front(rec, n), &mut nodes[..room])
}

// A root, where the first `lent` bytes of the buffer are lent.
pub(crate) fn root_lent(size: u64, nodes: &[u8], lent: usize) -> Result<Digest, Refused> {
    let mode = digest::plain();
    evidence_log::root(&mode, size, front(nodes, lent))
}
