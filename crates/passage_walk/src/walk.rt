// The walk from the root of the folded tree down: the indexes are handed on to the left and right subtrees.
ghost use Rattle.std.specs.Prelude.{◌≡◌};
ghost use Rattle.digest.specs.Digest.{digest_in};
ghost use Rattle.passage_walk.specs.Steps.{next, Passable, Given, Asked, Walkable, Walked};

use crate::{Part, Place, join};
use inputs::fork::Fork;

// A subtree whose digest is given. A leaf, below, is read from another list and takes another digest of the letter.
fn given(mode: &[u8; 36], nodes: &[u8], items: &[u8], n: u64, at: Place) -> Part
    ensures { Given (digest_in mode.now) nodes.now items.now n at result }
{
    Part {
        log: nodes::fold_from(mode, nodes, n, at.node),
        letter: nodes::node_at(items, at.used),
        asked: 0,
        used: 1,
        broken: false,
        difference: None,
    }
}

// A leaf that is asked for.
fn asked(nodes: &[u8], leaves: &[u8], at: Place) -> Part
    ensures { Asked nodes.now leaves.now at result }
{
    Part {
        log: nodes::node_at(nodes, at.node),
        letter: nodes::node_at(leaves, at.asked),
        asked: 1,
        used: 0,
        broken: false,
        difference: None,
    }
}

// Where the right side of a fork begins, of which the left side has `half` leaves and took so many digests of the letter.
fn beyond(at: Place, half: u64, asked: u64, used: u64) -> Place
    requires { Passable at half asked used }
    ensures { result ≡ next at half asked used }
{
    Place {
        leaf: at.leaf + half,
        node: at.node + (2 * half - 1),
        asked: at.asked + asked,
        used: at.used + used,
    }
}

// The walk of n leaves, n at most 2^h, from a place on, for the indexes among them.
pub(crate) fn walk(
    mode: &[u8; 36],
    nodes: &[u8],
    leaves: &[u8],
    items: &[u8],
    h: u32,
    n: u64,
    is: &[u64],
    at: Place,
) -> Part
    requires { Walkable h n is.now at }
    ensures { Walked (digest_in mode.now) nodes.now leaves.now items.now h n is.now at
        result }
{
    if is.is_empty() {
        return given(mode, nodes, items, n, at);
    }
    if h == 0 {
        return asked(nodes, leaves, at);
    }
    let g = h - 1;
    let half = shape::power(g);
    if n <= half {
        return walk(mode, nodes, leaves, items, g, n, is, at);
    }
    let rest = n - half;
    let k = passage::count::below(is, at.leaf + half);
    let fore = &is[..k];
    let back = &is[k..];
    let left = walk(mode, nodes, leaves, items, g, half, fore, at);
    let next = beyond(at, half, left.asked, left.used);
    let right = walk(mode, nodes, leaves, items, g, rest, back, next);
    let fork = Fork {
        half,
        rest,
        mid: next.node,
    };
    join::join(mode, nodes, fork, left, right)
}
