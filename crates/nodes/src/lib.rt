// The one reader of a log's nodes: the digest at a position, and peaks folded from the right.
#![tactic(auto)]

ghost use Rattle.std.specs.Prelude.{◌≡◌};
ghost use Rattle.digest.specs.Digest.{digest_in};
ghost use Rattle.shape.specs.Positions.{peaks_in, fold};
ghost use Rattle.nodes.specs.Nodes.{node_in, fold_from};
ghost use Rattle.nodes.specs.Steps.{Foldable};

use digest::Digest;

// The last position, 2^34, from which peaks are folded.
const MOST_START: u64 = 17179869184;

// The first position, 2^59, that no buffer reaches.
const BEYOND: u64 = 576460752303423488;

// The digest at position p, which the nodes do not reach wholly: zeros past the end.
fn edge(nodes: &[u8], p: u64) -> Digest
    ensures { result.bytes ≡ node_in nodes.now p }
{
    if BEYOND <= p {
        return Digest { bytes: [0u8; 32] };
    }
    Digest {
        bytes: wire::read_digest(nodes, (32 * p) as usize),
    }
}

// The digest at position p: zeros past the end.
pub fn node_at(nodes: &[u8], p: u64) -> Digest
    ensures { result.bytes ≡ node_in nodes.now p }
{
    if nodes.len() as u64 / 32 <= p {
        return edge(nodes, p);
    }
    let at = (32 * p) as usize;
    let mut bytes = [0u8; 32];
    bytes.copy_from_slice(&nodes[at..at + 32]);
    Digest { bytes }
}

// The peaks of n leaves, 1 to 2^32, whose nodes begin at position s, at most 2^34, folded: zeros for other numbers.
pub fn fold_from(mode: &[u8; 36], nodes: &[u8], n: u64, s: u64) -> Digest
    ensures { result.bytes ≡ fold_from (digest_in mode.now) nodes.now n s }
{
    if n == 0 || shape::MOST_LEAVES < n || MOST_START < s {
        return Digest { bytes: [0u8; 32] };
    }
    folded(mode, nodes, shape::height(n) + 1, n, s)
}

// The peaks of n leaves, n above 0 and below 2^k, whose nodes begin at position s, folded.
fn folded(mode: &[u8; 36], nodes: &[u8], k: u32, n: u64, s: u64) -> Digest
    requires { Foldable k n s }
    ensures { result.bytes ≡ fold (digest_in mode.now) (node_in nodes.now) (peaks_in k n s) }
{
    let h = k - 1;
    let half = shape::power(h);
    if n < half {
        return folded(mode, nodes, h, n, s);
    }
    let top = s + (2 * half - 2);
    let left = node_at(nodes, top);
    let rest = n - half;
    if rest == 0 {
        return left;
    }
    let right = folded(mode, nodes, h, rest, top + 1);
    digest::digest_of_pair(mode, left, right)
}
