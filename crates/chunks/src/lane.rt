// Four whole chunks side by side.
ghost use Rattle.std.specs.Prelude.{◌≡◌, ◌+◌, ◌%◌, ◌^◌, ◌≤◌, length};
ghost use Rattle.chunks.specs.Chunks.{chunked};
ghost use Rattle.chunks.specs.Lanes.{lane_of, laned, chunk_in, chunked4};
ghost use Rattle.chunks.specs.Steps.{compressed4};

use crate::{CHUNK_END, CHUNK_START, Keying};
use compression::compress::compress_lane;
use words::load;

// The last number, 2^54 - 4, from which four chunks are counted: no slice has more chunks than 2^54.
pub const MOST_FIRST: u64 = 18014398509481980;

// Lane k of four, counted round: lane 4 is lane 0 again.
pub fn lane(v: &[u32; 32], k: usize) -> [u32; 8]
    ensures { result ≡ lane_of v.now (k % 4) }
{
    let mut out = [0u32; 8];
    for i in 0..8 {
        out[i] = v[8 * (k % 4) + i];
    }
    out
}

// Four compressions: lane k takes the whole block at place `at` of chunk k, whose number is n + k.
fn compress4(cv: [u32; 32], bytes: &[u8], at: usize, n: u64, flags: u32) -> [u32; 32]
    requires { (length bytes.now ≡ 4096) × (at ≤ 960) × (n + 4 ≤ 2 ^ 54) }
    ensures { result ≡ compressed4 cv bytes.now at n flags }
{
    let mut out = [0u32; 32];
    for k in 0..4 {
        let p = 1024 * k + at;
        let e = p + 64;
        let v = compress_lane(lane(&cv, k), load(&bytes[p..e]), n + (k as u64), 64, flags);
        // word by word, as in `lane`: with one copy of the eight the vector code is lost (bench/lanes.sh)
        for i in 0..8 {
            out[8 * k + i] = v[i];
        }
    }
    out
}

// The same eight words in each lane.
fn spread(key: [u32; 8]) -> [u32; 32]
    ensures { result ≡ laned (λ k. key) }
{
    let mut out = [0u32; 32];
    for k in 0..4 {
        out[8 * k..8 * k + 8].copy_from_slice(&key);
    }
    out
}

// The chaining words of four whole chunks, the first of number n.
fn whole4(keying: Keying, n: u64, bytes: &[u8]) -> [u32; 32]
    requires { (length bytes.now ≡ 4096) × (n + 4 ≤ 2 ^ 54) }
    ensures { result ≡ laned (λ k. chunked keying.words keying.flag 0 (n + k) (chunk_in bytes.now k)) }
{
    let flags = keying.flag as u32;
    let mut cv = spread(keying.words);
    let mut start = CHUNK_START;
    for b in 0..15 {
        let next = compress4(cv, bytes, 64 * b, n, flags + start);
        cv = next;
        start = 0;
    }
    compress4(cv, bytes, 960, n, flags + start + CHUNK_END)
}

// The same for any slice and number: zeros for another length than 4,096 bytes, and for a number above MOST_FIRST.
pub fn chunk4(keying: Keying, n: u64, bytes: &[u8]) -> [u32; 32]
    ensures { result ≡ chunked4 keying.words keying.flag n bytes.now }
{
    if bytes.len() != 4096 || MOST_FIRST < n {
        return [0u32; 32];
    }
    whole4(keying, n, bytes)
}
