// The walk from the root of the folded tree down to a leaf, the log's side beside the letter's, and whether a node on the way is broken.
#![tactic(auto)]

ghost use Rattle.std.specs.Prelude.{◌≡◌};
ghost use Rattle.digest.specs.Digest.{digest_in};
ghost use Rattle.wire.specs.Slices.{bit};
ghost use Rattle.nodes.specs.Nodes.{node_in};
ghost use Rattle.letter_walk.specs.Outcome.{walked_off, walk_none, walk_outcome, broken_outcome};

mod broken;
mod walk;

use digest::Digest;
use inputs::Unequal;

// What the walk knows of a part of the tree: the digest on top of it by the log and by the letter, how many items the letter's took, and the first
// difference of the inputs.
#[derive(Drop)]
pub struct Trail {
    pub log: Digest,
    pub letter: Digest,
    pub used: u64,
    pub difference: Option<Unequal>,
}

// Nothing found. The Trail of `passage_walk` has other fields, and so its own such answer.
fn nothing() -> Trail
    ensures { walked_off result ≡ walk_none }
{
    Trail {
        log: Digest { bytes: [0u8; 32] },
        letter: Digest { bytes: [0u8; 32] },
        used: 0,
        difference: None,
    }
}

// The walk to leaf i of n leaves, n at most 2^32, with the letter's leaf and its items. For other numbers nothing is found: digests all zero.
pub fn walk_to(mode: &[u8; 36], nodes: &[u8], items: &[u8], n: u64, i: u64, leaf: Digest) -> Trail
    ensures { walked_off result ≡ walk_outcome (digest_in mode.now) (node_in nodes.now) n i leaf.bytes items.now }
{
    if n <= i || shape::MOST_LEAVES < n {
        return nothing();
    }
    walk::walk(mode, nodes, items, shape::height(n), n, i, 0, leaf, 0)
}

// Whether a node on the way to leaf i of n leaves, n at most 2^32, within its peak, isn't the digest of its two children.
pub fn broken_to(mode: &[u8; 36], nodes: &[u8], n: u64, i: u64) -> bool
    ensures { bit result ≡ broken_outcome (digest_in mode.now) (node_in nodes.now) n i }
{
    if n <= i || shape::MOST_LEAVES < n {
        return false;
    }
    broken::on_way(mode, nodes, shape::height(n), n, i, 0)
}
