// Whether a node on the path, within its peak, isn't the digest of its two children.
ghost use Rattle.std.specs.Prelude.{◌≡◌, suc};
ghost use Rattle.digest.specs.Digest.{digest_in};
ghost use Rattle.wire.specs.Slices.{bit};
ghost use Rattle.shape.specs.Seen.{broken_in};
ghost use Rattle.nodes.specs.Nodes.{node_in};
ghost use Rattle.letter_walk.specs.Steps.{top_broken, Walkable};

use inputs::fork::Fork;

// Whether the node on top of a fork isn't the digest of its two children. Above the peaks no node stands there.
fn top_broken(mode: &[u8; 36], nodes: &[u8], at: Fork) -> bool
    ensures { bit result ≡ top_broken (digest_in mode.now) nodes.now at.half at.rest at.mid }
{
    let Some(top) = at.top(nodes) else {
        return false;
    };
    let left = nodes::node_at(nodes, at.mid - 1);
    let right = nodes::node_at(nodes, at.mid + (2 * at.half - 2));
    inputs::digests_differ(top, digest::digest_of_pair(mode, left, right))
}

// Whether a node on the way to leaf i of n leaves whose nodes begin at position s, n at most 2^h, isn't the digest of its two children.
pub(crate) fn on_way(mode: &[u8; 36], nodes: &[u8], h: u32, n: u64, i: u64, s: u64) -> bool
    requires { Walkable h n i s 0 }
    ensures { bit result ≡ broken_in (digest_in mode.now) (node_in nodes.now) (suc h) n i s }
{
    if h == 0 {
        return false;
    }
    let g = h - 1;
    let half = shape::power(g);
    if n <= half {
        return on_way(mode, nodes, g, n, i, s);
    }
    let mid = s + (2 * half - 1);
    let rest = n - half;
    let at = Fork { half, rest, mid };
    if top_broken(mode, nodes, at) {
        return true;
    }
    if i < half {
        return on_way(mode, nodes, g, half, i, s);
    }
    on_way(mode, nodes, g, rest, i - half, mid)
}
