// The digest of a record beside the leaf at its place.
ghost use Rattle.std.specs.Prelude.{◌≡◌};
ghost use Rattle.wire.specs.Slices.{bit, differ};
ghost use Rattle.nodes.specs.Nodes.{node_in};
ghost use Rattle.letter.specs.Items.{leaf_in};

use digest::Digest;

// Whether a record's digest d differs from the leaf at index i. An index that no leaf has is held to the first node.
pub fn foreign(nodes: &[u8], i: u64, d: Digest) -> bool
    ensures { bit result ≡ differ d.bytes (leaf_in (node_in nodes.now) i) }
{
    let position = shape::leaf_position(i).unwrap_or(0);
    let leaf = nodes::node_at(nodes, position);
    wire::differ(&d.bytes, &leaf.bytes)
}
