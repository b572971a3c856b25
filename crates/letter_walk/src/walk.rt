// The walk from the root of the folded tree down to a leaf, the log's side beside the letter's.
ghost use Rattle.std.specs.Prelude.{◌≡◌, ◌≤◌};
ghost use Rattle.digest.specs.Digest.{digest_in};
ghost use Rattle.inputs.specs.Inputs.{bytes_of, beside};
ghost use Rattle.letter_walk.specs.Steps.{crown, OneFork, LeftForked, RightForked, AtLeaf, Walkable, Walked};

use crate::Trail;
use digest::Digest;
use inputs::Input;
use inputs::fork::Fork;

// What stands on top of a fork: within a peak the node, above the peaks the digest of the log's input, the letter's unless the two are apart.
fn crown(
    mode: &[u8; 36],
    nodes: &[u8],
    at: Fork,
    ours: Input,
    apart: bool,
    letter: Digest,
) -> Digest
    ensures { result.bytes ≡ crown nodes.now at.half at.rest at.mid (beside apart (digest_in mode.now (bytes_of ours)) letter.bytes) }
{
    match at.top(nodes) {
        Some(node) => node,
        None => inputs::digest_beside(mode, ours, apart, letter),
    }
}

// One fork above a walk: what the log hashes there and what the letter hashes.
fn fork(mode: &[u8; 36], nodes: &[u8], at: Fork, low: Trail, ours: Input, theirs: Input) -> Trail
    requires { low.used ≤ 64 }
    ensures { OneFork (digest_in mode.now) low (crown nodes.now at.half at.rest at.mid (digest_in mode.now (bytes_of ours))) ours theirs
        result }
{
    let apart = inputs::inputs_differ(ours, theirs);
    let highest = inputs::higher(low.difference, apart, ours, theirs);
    let letter = digest::digest_of_pair(mode, theirs.left, theirs.right);
    let log = crown(mode, nodes, at, ours, apart, letter);
    Trail {
        log,
        letter,
        used: low.used + 1,
        difference: highest,
    }
}

// A fork whose left side the walk below went to: the log's right side is folded, the letter's is given.
fn left_fork(mode: &[u8; 36], nodes: &[u8], at: Fork, low: Trail, side: Digest) -> Trail
    requires { low.used ≤ 64 }
    ensures { LeftForked (digest_in mode.now) nodes.now at.half at.rest at.mid low side.bytes result }
{
    let ours = Input {
        left: low.log,
        right: nodes::fold_from(mode, nodes, at.rest, at.mid),
    };
    let theirs = Input {
        left: low.letter,
        right: side,
    };
    fork(mode, nodes, at, low, ours, theirs)
}

// A fork whose right side the walk below went to: the log's left side is a node, the letter's is given.
fn right_fork(mode: &[u8; 36], nodes: &[u8], at: Fork, low: Trail, side: Digest) -> Trail
    requires { low.used ≤ 64 }
    ensures { RightForked (digest_in mode.now) nodes.now at.half at.rest at.mid low side.bytes result }
{
    let ours = Input {
        left: nodes::node_at(nodes, at.mid - 1),
        right: low.log,
    };
    let theirs = Input {
        left: side,
        right: low.letter,
    };
    fork(mode, nodes, at, low, ours, theirs)
}

// No turn: the leaf at position s.
fn at_leaf(nodes: &[u8], s: u64, leaf: Digest) -> Trail
    ensures { AtLeaf nodes.now s leaf.bytes result }
{
    Trail {
        log: nodes::node_at(nodes, s),
        letter: leaf,
        used: 0,
        difference: None,
    }
}

// The walk to leaf i of n leaves whose nodes begin at position s, n at most 2^h, with the letter's leaf and its items from number `from` on.
pub(crate) fn walk(
    mode: &[u8; 36],
    nodes: &[u8],
    items: &[u8],
    h: u32,
    n: u64,
    i: u64,
    s: u64,
    leaf: Digest,
    from: u64,
) -> Trail
    requires { Walkable h n i s from }
    ensures { Walked (digest_in mode.now) h n i s leaf.bytes from nodes.now items.now result }
{
    if h == 0 {
        return at_leaf(nodes, s, leaf);
    }
    let g = h - 1;
    let half = shape::power(g);
    if n <= half {
        return walk(mode, nodes, items, g, n, i, s, leaf, from);
    }
    let mid = s + (2 * half - 1);
    let rest = n - half;
    let at = Fork { half, rest, mid };
    if i < half {
        let low = walk(mode, nodes, items, g, half, i, s, leaf, from);
        let side = nodes::node_at(items, from + low.used);
        return left_fork(mode, nodes, at, low, side);
    }
    if rest == half {
        let low = walk(mode, nodes, items, g, rest, i - half, mid, leaf, from);
        let side = nodes::node_at(items, from + low.used);
        return right_fork(mode, nodes, at, low, side);
    }
    let low = walk(mode, nodes, items, g, rest, i - half, mid, leaf, from + 1);
    right_fork(mode, nodes, at, low, nodes::node_at(items, from))
}
