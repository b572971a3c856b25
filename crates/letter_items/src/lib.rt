// The items of an index, read from a log's nodes.
#![tactic(auto)]

ghost use Rattle.std.specs.Prelude.{◌≡◌, map, suc, ◌+◌, ◌*◌, ◌^◌, ◌≤◌, ◌<◌, length};
ghost use Rattle.digest.specs.Digest.{digest_in};
ghost use Rattle.wire.specs.Slices.{splice, written, joined};
ghost use Rattle.shape.specs.Positions.{positions_in, fold};
ghost use Rattle.nodes.specs.Nodes.{node_in};
ghost use Rattle.letter.specs.Items.{items_of};

// Writes the items of index i of n leaves over the bytes from a place on. They are written only where they fit wholly.
pub fn write_items(mode: &[u8; 36], d: &mut [u8], at: usize, nodes: &[u8], n: u64, i: u64)
    ensures { d.new ≡ written at (joined (items_of (digest_in mode.now) (node_in nodes.now) n i)) d.old }
{
    if n <= i || shape::MOST_LEAVES < n {
        return;
    }
    let length = 32 * letter::count::item_count(n, i) as usize;
    if d.len() < at || d.len() - at < length {
        return;
    }
    put_items(mode, d, at, nodes, shape::height(n), n, i, 0);
}

// Writes the items of leaf i of n leaves whose nodes begin at position s, n at most 2^h. Returns the place behind them.
fn put_items(
    mode: &[u8; 36],
    d: &mut [u8],
    at: usize,
    nodes: &[u8],
    h: u32,
    n: u64,
    i: u64,
    s: u64,
) -> usize
    requires { (h ≤ 32) × (i < n) × (n ≤ 2 ^ h) × (s + 2 * 2 ^ h ≤ 2 ^ 34) × (at + 32 * length (positions_in (suc h) n i s) ≤ length d.old) }
    ensures { (result ≡ at + 32 * length (positions_in (suc h) n i s))
        × (d.new ≡ splice at (joined (map (fold (digest_in mode.now) (node_in nodes.now)) (positions_in (suc h) n i s))) d.old) }
{
    if h == 0 {
        return at;
    }
    let g = h - 1;
    let half = shape::power(g);
    if n <= half {
        return put_items(mode, d, at, nodes, g, n, i, s);
    }
    let mid = s + (2 * half - 1);
    let rest = n - half;
    if i < half {
        let next = put_items(mode, d, at, nodes, g, half, i, s);
        let right = nodes::fold_from(mode, nodes, rest, mid).bytes;
        wire::write_digest(d, next, right);
        return next + 32;
    }
    let left = nodes::node_at(nodes, mid - 1).bytes;
    if rest == half {
        let next = put_items(mode, d, at, nodes, g, rest, i - half, mid);
        wire::write_digest(d, next, left);
        return next + 32;
    }
    wire::write_digest(d, at, left);
    put_items(mode, d, at + 32, nodes, g, rest, i - half, mid)
}
