// The new nodes of an append, put behind the old ones: the leaf, and the parents above it.
#![tactic(auto)]

ghost use Rattle.std.specs.Prelude.{◌≡◌, ◌+◌, ◌*◌, ◌^◌, ◌≤◌, length};
ghost use Rattle.digest.specs.Digest.{digest_in};
ghost use Rattle.wire.specs.Slices.{splice, joined};
ghost use Rattle.new_nodes.specs.Outcome.{put_left, put_outcome};
ghost use Rattle.new_nodes.specs.Steps.{Lefts, left_in, ups};

use digest::Digest;

// Puts the leaf of a record at position `size`, and the m parents above it, from byte 32 × size on: how many nodes that is. None, and no byte
// changes, for more than 32 parents, for more than there are trees before the leaf, and where the buffer is too short.
pub fn put_new(mode: &[u8; 36], size: u64, m: u32, rec: &[u8], nodes: &mut [u8]) -> Option<u64>
    ensures { put_left result nodes.new ≡ put_outcome (digest_in mode.now) size m rec.now nodes.old }
{
    if 32 < m || size < shape::power(m) - 1 {
        return None;
    }
    let room = (nodes.len() as u64) / 32;
    let count = 1 + m as u64;
    if room < size || room - size < count {
        return None;
    }
    let at = (32 * size) as usize;
    if m == 0 {
        let leaf = digest::digest_of(mode, rec);
        wire::write_digest(nodes, at, leaf.bytes);
        return Some(1);
    }
    let saved = lefts(nodes, size, m);
    write_new(mode, &mut nodes[at..], rec, &saved, m);
    Some(count)
}

// The left children of the m parents above a leaf that is to stand at position `size`, lowest first: at most 32
// digests, in fixed memory.
fn lefts(nodes: &[u8], size: u64, m: u32) -> [u8; 1024]
    requires { (m ≤ 32) × (size ≤ 2 ^ 60) × (2 ^ m ≤ size + 1) }
    ensures { Lefts nodes.now size m result }
{
    let mut saved = [0u8; 1024];
    let mut span: u64 = 1;
    for j in 0..m {
        let p = size + j as u64 - (2 * span - 1);
        let left = nodes::node_at(nodes, p);
        wire::write_digest(&mut saved, 32 * j as usize, left.bytes);
        span = 2 * span;
    }
    saved
}

// The leaf and its m parents, into the front of the part that is lent.
fn write_new(mode: &[u8; 36], tail: &mut [u8], rec: &[u8], saved: &[u8; 1024], m: u32)
    requires { (m ≤ 32) × (32 * (1 + m) ≤ length tail.old) }
    ensures { tail.new
        ≡ splice 0 (joined (ups mode.now (left_in saved.now) m (digest_in mode.now rec.now))) tail.old }
{
    let mut top = digest::digest_of(mode, rec);
    wire::write_digest(tail, 0, top.bytes);
    for j in 0..m {
        let left = wire::read_digest(saved, 32 * j as usize);
        top = digest::digest_of_pair(mode, Digest { bytes: left }, top);
        wire::write_digest(tail, 32 * (j as usize + 1), top.bytes);
    }
}
