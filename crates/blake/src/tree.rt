// The tree over the chunks, and the digest in a mode.
ghost use Rattle.std.specs.Prelude.{◌≡◌, ◌++◌, ◌*◌, ◌^◌, ◌<◌, ◌≤◌, length};
ghost use Rattle.blake.specs.Blake.{parented, treed, treed4, digested};
ghost use Rattle.blake.specs.Steps.{Room};

use crate::flags::{ONLY_BLOCK, PARENT, ROOT};
use chunks::lane::{MOST_FIRST, chunk4, lane};
use chunks::{Keying, chunk};
use compression::compress::compress;
use words::{join, load_half, unload};

// A parent of two chaining values.
pub fn parent(keying: Keying, root: u8, l: [u32; 8], r: [u32; 8]) -> [u32; 8]
    ensures { result ≡ parented keying.words keying.flag root l r }
{
    let flags = keying.flag as u32 + PARENT + root as u32;
    compress(keying.words, join(l, r), 0, 64, flags)
}

// The tree over four whole chunks, the first of number n: zeros for another length than 4,096 bytes, and for a number above MOST_FIRST.
pub fn quad(keying: Keying, root: u8, n: u64, bytes: &[u8]) -> [u32; 8]
    ensures { result ≡ treed4 keying.words keying.flag root n bytes.now }
{
    if bytes.len() != 4096 || MOST_FIRST < n {
        return [0u32; 8];
    }
    let v = chunk4(keying, n, bytes);
    let a = parent(keying, 0, lane(&v, 0), lane(&v, 1));
    let b = parent(keying, 0, lane(&v, 2), lane(&v, 3));
    parent(keying, root, a, b)
}

// 2^h.
fn power(h: u32) -> u64
    requires { h < 54 }
    ensures { (result ≡ 2 ^ h) × (result ≤ 2 ^ 53) }
{
    1 << h
}

// The tree over at most 2^h chunks, the first of number n.
fn tree(h: u32, keying: Keying, root: u8, n: u64, bytes: &[u8]) -> [u32; 8]
    requires { Room h n (length bytes.now) }
    ensures { result ≡ treed h keying.words keying.flag root n bytes.now }
{
    if bytes.len() <= 1024 {
        return chunk(keying, root, n, bytes);
    }
    if bytes.len() == 4096 {
        return quad(keying, root, n, bytes);
    }
    let below = h - 1;
    let chunks = power(below);
    let left = 1024 * (chunks as usize);
    if bytes.len() <= left {
        return tree(below, keying, root, n, bytes);
    }
    let l = tree(below, keying, 0, n, &bytes[..left]);
    let r = tree(below, keying, 0, n + chunks, &bytes[left..]);
    parent(keying, root, l, r)
}

// A height whose tree holds len bytes.
fn height(len: usize) -> u32
    ensures { (result ≤ 54) × (len ≤ 1024 * 2 ^ result) }
{
    if len <= 1024 {
        0
    } else {
        64 - u64::leading_zeros(((len - 1) / 1024) as u64)
    }
}

// The digest in a mode: the words that chaining begins with, and a flag on every compression.
pub(crate) fn digest_in(keying: Keying, bytes: &[u8]) -> [u8; 32]
    ensures { result ≡ digested keying.words keying.flag bytes.now }
{
    let h = height(bytes.len());
    unload(tree(h, keying, ROOT, 0, bytes))
}

// The digest of two digests in a mode: chunk start, chunk end and root on one block.
pub(crate) fn pair_in(keying: Keying, left: [u8; 32], right: [u8; 32]) -> [u8; 32]
    ensures { result ≡ digested keying.words keying.flag (left ++ right) }
{
    let m = join(load_half(&left), load_half(&right));
    unload(compress(keying.words, m, 0, 64, keying.flag as u32 + ONLY_BLOCK))
}
