// The digests of a passage letter, read from a log's nodes.
#![tactic(auto)]

ghost use Rattle.std.specs.Prelude.{◌≡◌, length};
ghost use Rattle.digest.specs.Digest.{digest_in};
ghost use Rattle.wire.specs.Slices.{written, joined};
ghost use Rattle.nodes.specs.Nodes.{node_in};
ghost use Rattle.passage.specs.Digests.{digests_of};
ghost use Rattle.passage_digests.specs.Steps.{Puttable, Put};

// Writes the digests for these indexes of n leaves over the bytes from a place on. They are written only where they fit wholly.
pub fn write_digests(mode: &[u8; 36], d: &mut [u8], at: usize, nodes: &[u8], n: u64, is: &[u64])
    ensures { d.new
        ≡ written at (joined (digests_of (digest_in mode.now) (node_in nodes.now) n is.now)) d.old }
{
    if n == 0 || shape::MOST_LEAVES < n || passage::MOST_RECORDS < is.len() {
        return;
    }
    let length = 32 * passage::count::digest_count(n, is) as usize;
    if d.len() < at || d.len() - at < length {
        return;
    }
    put_digests(mode, d, at, nodes, shape::height(n), n, 0, is, 0);
}

// Writes the digests for n leaves, n at most 2^h, the first of them leaf p, whose nodes begin at position s, and the indexes among them. Returns the
// place behind them.
fn put_digests(
    mode: &[u8; 36],
    d: &mut [u8],
    at: usize,
    nodes: &[u8],
    h: u32,
    n: u64,
    p: u64,
    is: &[u64],
    s: u64,
) -> usize
    requires { Puttable h n p is.now s at (length d.old) }
    ensures { Put mode.now nodes.now h n p is.now s at d.old result d.new }
{
    if is.len() == 0 {
        let top = nodes::fold_from(mode, nodes, n, s).bytes;
        wire::write_digest(d, at, top);
        return at + 32;
    }
    if h == 0 {
        return at;
    }
    let g = h - 1;
    let half = shape::power(g);
    if n <= half {
        return put_digests(mode, d, at, nodes, g, n, p, is, s);
    }
    let mid = s + (2 * half - 1);
    let rest = n - half;
    let next = p + half;
    let k = passage::count::below(is, next);
    let behind = put_digests(mode, d, at, nodes, g, half, p, &is[..k], s);
    put_digests(mode, d, behind, nodes, g, rest, next, &is[k..], mid)
}
