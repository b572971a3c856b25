// Sizes, positions and leaf counts of a log of up to 2^32 leaves.
#![tactic(auto)]

ghost use Rattle.std.specs.Prelude.{◌≡◌, ℕ, ◌+◌, ◌%◌, ◌^◌, ◌≤◌, ◌<◌};
ghost use Rattle.shape.specs.Answers.{answered};
ghost use Rattle.shape.specs.Sizes.{size_of, size_answer, position_answer, count_answer, trailing_ones, height_of};

use refusals::Refused;

// The most leaves of a log, 2^32, and their size.
pub const MOST_LEAVES: u64 = 4294967296;

pub const MOST_NODES: u64 = 8589934591;

// 2n minus the ones in n.
fn twice_less_ones(n: u64) -> u64
    requires { n ≤ 2 ^ 33 }
    ensures { result ≡ size_of n }
{
    2 * n - u64::count_ones(n) as u64
}

// The leaves that a peak of height h covers: 2^h modulo 2^64.
pub fn power(h: u32) -> u64
    ensures { result ≡ 2 ^ h % 2 ^ 64 }
{
    if h < 64 { 1 << h } else { 0 }
}

// The size of n leaves. 2 above 2^32.
pub fn size_of(n: u64) -> Result<u64, Refused>
    ensures { answered result ≡ size_answer n }
{
    if n <= MOST_LEAVES {
        Ok(twice_less_ones(n))
    } else {
        Err(Refused::LogFull)
    }
}

// Where leaf i stands. 5 unless i is below 2^32: another limit and another refusal than a size has.
pub fn leaf_position(i: u64) -> Result<u64, Refused>
    ensures { answered result ≡ position_answer i }
{
    if i < MOST_LEAVES {
        Ok(twice_less_ones(i))
    } else {
        Err(Refused::NoSuchLeaf)
    }
}

// The first of 32 counts in a row, a multiple of 32, among which each count of this size is: a count is half its size and at most 16 more.
fn near(size: u64) -> u64
    requires { size ≤ 8589934591 }
    ensures { (result % 32 ≡ 0) × (result ≤ 2 ^ 32) × (size_of result ≤ size) × ((m : ℕ) → size_of m ≡ size → (result ≤ m) × (m < result + 32)) }
{
    let low = size / 64 * 32;
    let next = low + 32;
    if twice_less_ones(next) <= size {
        return next;
    }
    low
}

// The number of leaves, up to 2^32, whose size this is: of 32 counts in a row, five bits one after the other. 1 where there is none.
pub fn leaf_count(size: u64) -> Result<u64, Refused>
    ensures { answered result ≡ count_answer size }
{
    if MOST_NODES < size {
        return Err(Refused::NoSuchSize);
    }
    let mut n = near(size);
    let mut rest = size - twice_less_ones(n);
    for k in (0..5).rev() {
        let span = power(k);
        let nodes = 2 * span - 1;
        if nodes <= rest {
            rest = rest - nodes;
            n = n + span;
        }
    }
    if rest == 0 {
        Ok(n)
    } else {
        Err(Refused::NoSuchSize)
    }
}

// How many parents an append to n leaves writes: the trailing ones of n.
pub fn merges(n: u64) -> u32
    ensures { result ≡ trailing_ones n }
{
    u64::trailing_zeros(!n)
}

// The height of the folded tree of n leaves: the least h with n at most 2^h.
pub fn height(n: u64) -> u32
    ensures { result ≡ height_of n }
{
    if n == 0 {
        0
    } else {
        64 - u64::leading_zeros(n - 1)
    }
}
