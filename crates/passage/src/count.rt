// The indexes parted between two subtrees, and the digests of a letter counted.
ghost use Rattle.std.specs.Prelude.{◌≡◌, ◌≤◌, length};
ghost use Rattle.views.specs.View.{givens};
ghost use Rattle.views.specs.Passage.{under, passage_in};
ghost use Rattle.passage.specs.Digests.{digest_count};
ghost use Rattle.passage.specs.Steps.{Countable};

// How many indexes at the front are below m. By `position` the proof did not close.
pub fn below(is: &[u64], m: u64) -> usize
    ensures { (result ≡ under m is.now) × (result ≤ length is.now) }
{
    for (k, &i) in is.iter().enumerate() {
        if m <= i {
            return k;
        }
    }
    is.len()
}

// How many digests are given for n leaves, n at most 2^h, the first of them leaf p, and the indexes among them.
fn count(h: u32, n: u64, p: u64, is: &[u64]) -> u64
    requires { Countable h p is.now }
    ensures { result ≡ givens (passage_in h n p is.now) }
{
    if is.len() == 0 {
        return 1;
    }
    if h == 0 {
        return 0;
    }
    let g = h - 1;
    let half = shape::power(g);
    if n <= half {
        return count(g, n, p, is);
    }
    let mid = p + half;
    let k = below(is, mid);
    let left = count(g, half, p, &is[..k]);
    let right = count(g, n - half, mid, &is[k..]);
    left + right
}

// How many digests the letter for these indexes of n leaves has.
pub fn digest_count(n: u64, is: &[u64]) -> u64
    ensures { result ≡ digest_count n is.now }
{
    if n == 0 || shape::MOST_LEAVES < n || crate::MOST_RECORDS < is.len() {
        return 0;
    }
    count(shape::height(n), n, 0, is)
}
