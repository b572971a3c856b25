// Blocks: bytes into one, and one that goes on when bytes follow.
ghost use Rattle.std.specs.Prelude.{◌≡◌, ◌++◌, ◌+◌, ◌≤◌, length, take};
ghost use Rattle.chunks.specs.Chunks.{start_flag};
ghost use Rattle.parts_rule.specs.Run.{block_number};
ghost use Rattle.parts_rule.specs.Stack.{padded};
ghost use Rattle.parts_rule.specs.Steps.{Full, Gone};

use chunks::{CHUNK_END, CHUNK_START, Keying};
use compression::compress::compress;
use subtrees::counts::chunks_before;
use subtrees::push;
use words::load;

// Where a state stands: the open chunk's chaining words, how many subtrees its stack has, and how many bytes came in all.
#[derive(Clone, Copy)]
pub(crate) struct Run {
    pub(crate) chain: [u32; 8],
    pub(crate) stacked: u32,
    pub(crate) total: u64,
}

// The first n bytes of a block, a run of bytes behind them, and zeros.
pub(crate) fn block_with(block: [u8; 64], n: usize, run: &[u8]) -> [u8; 64]
    requires { n + length run.now ≤ 64 }
    ensures { result ≡ padded 64 (take n block ++ run.now) }
{
    let mut out = [0u8; 64];
    out[..n].copy_from_slice(&block[..n]);
    out[n..n + run.len()].copy_from_slice(run);
    out
}

// The flags of the block that ends a total, before its own end is known.
pub(crate) fn opening(flag: u8, total: u64) -> u32
    ensures { (result ≡ flag + start_flag (block_number total)) × (result ≤ 256) }
{
    let n = chunks_before(total);
    if total - 1024 * n <= 64 {
        flag as u32 + CHUNK_START
    } else {
        flag as u32
    }
}

// A full block that bytes follow, the last of a total: it is compressed, and where it ends its chunk, the chunk's value goes on the stack.
pub(crate) fn go_on(keying: Keying, run: Run, stack: &mut [u32], block: &[u8]) -> Run
    requires { (length stack.old ≡ 240) × (length block.now ≡ 64) × Full run.total run.stacked }
    ensures { Gone keying.words keying.flag run.chain stack.old run.stacked run.total block.now stack.new result.chain result.stacked
        × (result.total ≡ run.total) }
{
    let n = chunks_before(run.total);
    let flags = opening(keying.flag, run.total);
    if run.total - 1024 * n == 1024 {
        let v = compress(run.chain, load(block), n, 64, flags + CHUNK_END);
        let chain = keying.words;
        let stacked = push(keying, stack, run.stacked, n + 1, v);
        return Run {
            chain,
            stacked,
            ..run
        };
    }
    let chain = compress(run.chain, load(block), n, 64, flags);
    Run { chain, ..run }
}
