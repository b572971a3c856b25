// The walk of the folded tree for the indexes of a passage, the log's side beside the letter's.
#![tactic(auto)]

ghost use Rattle.std.specs.Prelude.{◌≡◌};
ghost use Rattle.digest.specs.Digest.{digest_in};
ghost use Rattle.nodes.specs.Nodes.{node_in};
ghost use Rattle.passage_walk.specs.Outcome.{walked_off, walk_none, walk_outcome};

mod join;
mod walk;

use digest::Digest;
use inputs::Unequal;

// What a walk finds: the digest on top by the log and by the letter, whether a node that it looks into is broken, and the first difference of the
// inputs.
#[derive(Drop)]
pub struct Trail {
    pub log: Digest,
    pub letter: Digest,
    pub broken: bool,
    pub difference: Option<Unequal>,
}

// The same of a part of the tree, and how many leaf digests and given digests of the letter it took: no caller of the walk is told these.
#[derive(Drop)]
struct Part {
    log: Digest,
    letter: Digest,
    asked: u64,
    used: u64,
    broken: bool,
    difference: Option<Unequal>,
}

// Where a part begins: its first leaf, the position of its first node, and the numbers of the first leaf digest and the first given digest that the
// letter has for it.
#[derive(Clone, Copy)]
struct Place {
    leaf: u64,
    node: u64,
    asked: u64,
    used: u64,
}

// Nothing found. The Trail of `letter_walk` has other fields, and so its own such answer.
fn nothing() -> Trail
    ensures { walked_off result ≡ walk_none }
{
    Trail {
        log: Digest { bytes: [0u8; 32] },
        letter: Digest { bytes: [0u8; 32] },
        broken: false,
        difference: None,
    }
}

// The walk of n leaves, 1 to 2^32, for up to 256 indexes, with the letter's digests of the records there and its given digests. For other numbers
// nothing is found: digests all zero.
pub fn walk_of(
    mode: &[u8; 36],
    nodes: &[u8],
    n: u64,
    is: &[u64],
    leaves: &[u8],
    items: &[u8],
) -> Trail
    ensures { walked_off result
        ≡ walk_outcome (digest_in mode.now) (node_in nodes.now) n is.now leaves.now items.now }
{
    if n == 0 || shape::MOST_LEAVES < n || passage::MOST_RECORDS < is.len() {
        return nothing();
    }
    let at = Place {
        leaf: 0,
        node: 0,
        asked: 0,
        used: 0,
    };
    let w = walk::walk(mode, nodes, leaves, items, shape::height(n), n, is, at);
    Trail {
        log: w.log,
        letter: w.letter,
        broken: w.broken,
        difference: w.difference,
    }
}
