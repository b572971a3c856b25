// The root worked out from an index, a record and items.
#![tactic(auto)]

ghost use Rattle.std.specs.Prelude.{◌≡◌, ◌++◌, ◌+◌, ◌*◌, ◌≤◌, length};
ghost use Rattle.wire.specs.Slices.{part, rows_from};
ghost use Rattle.digest.specs.Digest.{digest_in};
ghost use Rattle.shape.specs.Tree.{root};
ghost use Rattle.shape.specs.Letter.{fill};
ghost use Rattle.shape.specs.Way.{way_in};
ghost use Rattle.letter.specs.Items.{item_count, tree_of};

use digest::Digest;

// A digest worked out on the way up, and how many items it took.
#[derive(Drop)]
struct Worked {
    digest: Digest,
    used: usize,
}

// Item number k.
fn item(items: &[u8], k: usize) -> Digest
    requires { k ≤ 64 }
    ensures { result.bytes ≡ part (32 * k) 32 items.now }
{
    let bytes = wire::read_digest(items, 32 * k);
    Digest { bytes }
}

// The parent of two digests, and one more item used.
fn parent(mode: &[u8; 36], left: Digest, right: Digest, used: usize) -> Worked
    requires { used ≤ 64 }
    ensures { (result.used ≡ used + 1) × (result.digest.bytes ≡ digest_in mode.now (left.bytes ++ right.bytes)) }
{
    let digest = digest::digest_of_pair(mode, left, right);
    Worked {
        digest,
        used: used + 1,
    }
}

// The root of n leaves, n at most 2^h, worked out from leaf i's digest and the items from number `from` on.
fn work(mode: &[u8; 36], h: u32, n: u64, i: u64, leaf: Digest, items: &[u8], from: usize) -> Worked
    requires { from + h ≤ 64 }
    ensures { (result.used ≡ length (way_in h n i)) × (result.digest.bytes
        ≡ root (digest_in mode.now) (fill (way_in h n i) leaf.bytes (rows_from 32 (32 * from) (length (way_in h n i)) items.now))) }
{
    if h == 0 {
        return Worked {
            digest: leaf,
            used: 0,
        };
    }
    let g = h - 1;
    let half = shape::power(g);
    if n <= half {
        return work(mode, g, n, i, leaf, items, from);
    }
    if i < half {
        let low = work(mode, g, half, i, leaf, items, from);
        let right = item(items, from + low.used);
        return parent(mode, low.digest, right, low.used);
    }
    let rest = n - half;
    if rest == half {
        let low = work(mode, g, rest, i - half, leaf, items, from);
        let left = item(items, from + low.used);
        return parent(mode, left, low.digest, low.used);
    }
    let peak = item(items, from);
    let low = work(mode, g, rest, i - half, leaf, items, from + 1);
    parent(mode, peak, low.digest, low.used)
}

// The root worked out for index i of n leaves from a record and the items that follow one another in `items`.
pub fn root_of(mode: &[u8; 36], n: u64, i: u64, rec: &[u8], items: &[u8]) -> Digest
    ensures { result.bytes
        ≡ root (digest_in mode.now) (tree_of (digest_in mode.now) n i rec.now (rows_from 32 0 (item_count n i) items.now)) }
{
    let leaf = digest::digest_of(mode, rec);
    let top = work(mode, shape::height(n), n, i, leaf, items, 0);
    top.digest
}
