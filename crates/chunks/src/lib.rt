// BLAKE3's chunks: one, block after block, and four whole ones side by side.
#![tactic(auto)]

ghost use Rattle.std.specs.Prelude.{◌≡◌};
ghost use Rattle.chunks.specs.Chunks.{chunked};

pub mod lane;

use compression::compress::compress;
use words::load;

// The flags of a chunk's first block and of its last.
pub const CHUNK_START: u32 = 1;

pub const CHUNK_END: u32 = 2;

// What a mode puts into each compression: the words that chaining begins with, and a flag. A flag is a byte, so that no sum of flags wraps.
#[derive(Clone, Copy)]
pub struct Keying {
    pub words: [u32; 8],
    pub flag: u8,
}

// The chaining words of chunk number n in a mode.
pub fn chunk(keying: Keying, root: u8, n: u64, bytes: &[u8]) -> [u32; 8]
    ensures { result ≡ chunked keying.words keying.flag root n bytes.now }
{
    let flags = keying.flag as u32;
    let last = bytes.len().saturating_sub(1) / 64;
    let mut cv = keying.words;
    let mut start = CHUNK_START;
    for i in 0..last {
        let next = compress(cv, load(&bytes[64 * i..64 * i + 64]), n, 64, flags + start);
        cv = next;
        start = 0;
    }
    let block = &bytes[64 * last..];
    compress(
        cv,
        load(block),
        n,
        block.len() as u32,
        flags + start + CHUNK_END + root as u32,
    )
}
