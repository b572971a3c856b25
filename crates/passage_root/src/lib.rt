// The root worked out from a passage letter: the digests of its records, and the root that these make with the digests given.
#![tactic(auto)]

ghost use Rattle.std.specs.Prelude.{◌≡◌, ◌+◌, ◌^◌, ◌≤◌};
ghost use Rattle.digest.specs.Digest.{digest_in};
ghost use Rattle.passage.specs.Bytes.{record_at};
ghost use Rattle.passage_root.specs.Root.{leaf_digests, RootOf};
ghost use Rattle.passage_root.specs.Steps.{AsItStands, Parent, Workable, WorkedOut};

use digest::Digest;

// A digest worked out, and how many leaf digests and given digests it took.
#[derive(Drop)]
struct Worked {
    digest: Digest,
    asked: u64,
    used: u64,
}

// A root worked out, and how many given digests it took.
#[derive(Drop)]
pub struct Rooted {
    pub digest: Digest,
    pub used: u64,
}

// The digest of the record at a place.
fn leaf_at(mode: &[u8; 36], letter: &[u8], at: usize) -> Digest
    ensures { result.bytes ≡ digest_in mode.now (record_at letter.now at) }
{
    let rec = passage_fields::record_at(letter, at);
    digest::digest_of(mode, rec)
}

// The digest of the record at each of the first 256 places, zeros behind them.
pub fn leaf_digests(mode: &[u8; 36], letter: &[u8], places: &[usize]) -> [u8; 8192]
    ensures { result ≡ leaf_digests (digest_in mode.now) letter.now places.now }
{
    let first = &places[..places.len().min(passage::MOST_RECORDS)];
    let mut bytes = [0u8; 8192];
    for (k, &at) in first.iter().enumerate() {
        let leaf = leaf_at(mode, letter, at).bytes;
        wire::write_digest(&mut bytes, 32 * k, leaf);
    }
    bytes
}

// Digest number k of a row, and what it counts for.
fn as_it_stands(row: &[u8], k: u64, asked: u64, used: u64) -> Worked
    ensures { AsItStands row.now k asked used result }
{
    let digest = nodes::node_at(row, k);
    Worked {
        digest,
        asked,
        used,
    }
}

// The digest of record number k: zeros where there is none.
fn record_digest(mode: &[u8; 36], letter: &[u8], places: &[usize], k: u64) -> Worked
    ensures { AsItStands (leaf_digests (digest_in mode.now) letter.now places.now) k 1 0 result }
{
    let digest = if k < places.len() as u64 && k < passage::MOST_RECORDS as u64 {
        leaf_at(mode, letter, places[k as usize])
    } else {
        Digest { bytes: [0u8; 32] }
    };
    Worked {
        digest,
        asked: 1,
        used: 0,
    }
}

// The parent of two digests worked out.
fn parent(mode: &[u8; 36], left: Worked, right: Worked) -> Worked
    requires { (left.asked + right.asked ≤ 2 ^ 32) × (left.used + right.used ≤ 2 ^ 32) }
    ensures { Parent mode.now left right result }
{
    let digest = digest::digest_of_pair(mode, left.digest, right.digest);
    Worked {
        digest,
        asked: left.asked + right.asked,
        used: left.used + right.used,
    }
}

// The root of n leaves, n at most 2^h, the first of them leaf p, from the records of those asked for, number i first, and the digests given, number j
// first. A record is hashed where its leaf is come to.
fn work(
    mode: &[u8; 36],
    h: u32,
    n: u64,
    p: u64,
    is: &[u64],
    letter: &[u8],
    places: &[usize],
    i: u64,
    items: &[u8],
    j: u64,
) -> Worked
    requires { Workable h p is.now i j }
    ensures { WorkedOut mode.now h n p is.now
        (leaf_digests (digest_in mode.now) letter.now places.now) i items.now j result }
{
    if is.len() == 0 {
        return as_it_stands(items, j, 0, 1);
    }
    if h == 0 {
        return record_digest(mode, letter, places, i);
    }
    let g = h - 1;
    let half = shape::power(g);
    if n <= half {
        return work(mode, g, n, p, is, letter, places, i, items, j);
    }
    let mid = p + half;
    let rest = n - half;
    let k = passage::count::below(is, mid);
    let front = &is[..k];
    let back = &is[k..];
    let left = work(mode, g, half, p, front, letter, places, i, items, j);
    let leaf = i + left.asked;
    let item = j + left.used;
    let right = work(mode, g, rest, mid, back, letter, places, leaf, items, item);
    parent(mode, left, right)
}

// The root of n leaves, 1 to 2^32, from the records at up to 256 indexes, which begin at these places of the letter, and the digests given. Zeros for
// other numbers.
pub fn root_of(
    mode: &[u8; 36],
    n: u64,
    is: &[u64],
    letter: &[u8],
    places: &[usize],
    items: &[u8],
) -> Rooted
    ensures { RootOf (digest_in mode.now) n is.now letter.now places.now items.now result }
{
    if n == 0 || shape::MOST_LEAVES < n || passage::MOST_RECORDS < is.len() {
        return Rooted {
            digest: Digest { bytes: [0u8; 32] },
            used: 0,
        };
    }
    let top = work(
        mode,
        shape::height(n),
        n,
        0,
        is,
        letter,
        places,
        0,
        items,
        0,
    );
    Rooted {
        digest: top.digest,
        used: top.used,
    }
}
