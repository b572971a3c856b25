// How a state takes a part, and its digest.
ghost use Rattle.std.specs.Prelude.{◌≡◌, true, ◌+◌, ◌%◌, ◌<◌, ◌≤◌, ◌^◌, length};
ghost use Rattle.blake.specs.Blake.{root_node};
ghost use Rattle.parts_rule.specs.Run.{between, put, taken, ended};
ghost use Rattle.parts_rule.specs.Stack.{subtrees};
ghost use Rattle.parts.specs.State.{start_of, flag_of, run_of, stored};
ghost use Rattle.parts_rule.specs.Steps.{Ready, Went};

use crate::Parts;
use crate::blocks::{Run, block_with, go_on, opening};
use crate::modes::keying_of;
use crate::sound::Sound;
use blake::flags::ROOT;
use blake::tree::quad;
use chunks::{CHUNK_END, Keying, chunk};
use compression::compress::compress;
use subtrees::counts::chunks_before;
use subtrees::{clear, push, root};
use words::{load, unload};

// Whether four chunks can be taken at once: their tree is a subtree, and the first begins as the others do.
fn fits_four(key: [u32; 8], run: Run, left: usize) -> bool
    ensures { result ≡ true → (run.total % 4096 ≡ 0) × (4096 < left) × (run.chain ≡ key) }
{
    run.total % 4096 == 0 && 4096 < left && run.chain == key
}

// One step through a part of more than 64 bytes, between two blocks: four chunks or one where they lie, if bytes follow them, or else one block.
// What is left of the part.
fn step<'a>(keying: Keying, run: Run, stack: &mut [u32], part: &'a [u8]) -> (Run, &'a [u8])
    requires { (length stack.old ≡ 240) × Ready run.stacked run.total (length part.now) × (64 < length part.now) }
    ensures { Went keying.words keying.flag run.chain stack.old run.stacked run.total part.now
        stack.new result.0.chain result.0.stacked result.0.total result.1.now × (length result.1.now < length part.now) }
{
    let n = run.total / 1024;
    let chain = keying.words;
    if run.total % 1024 != 0 || part.len() <= 1024 {
        let full = Run {
            total: run.total + 64,
            ..run
        };
        let next = go_on(keying, full, stack, &part[..64]);
        return (next, &part[64..]);
    }
    if fits_four(chain, run, part.len()) {
        let v = quad(keying, 0, n, &part[..4096]);
        let stacked = push(keying, stack, run.stacked, n + 4, v);
        let next = Run {
            chain,
            stacked,
            total: run.total + 4096,
        };
        return (next, &part[4096..]);
    }
    let words = run.chain;
    let open = Keying { words, ..keying };
    let v = chunk(open, 0, n, &part[..1024]);
    let stacked = push(keying, stack, run.stacked, n + 1, v);
    let next = Run {
        chain,
        stacked,
        total: run.total + 1024,
    };
    (next, &part[1024..])
}

// Steps through a part, between two blocks, until at most 64 bytes are left.
fn steps<'a>(keying: Keying, run: Run, stack: &mut [u32], part: &'a [u8]) -> (Run, &'a [u8])
    requires { (length stack.old ≡ 240) × Ready run.stacked run.total (length part.now) × (0 < length part.now) }
    ensures { Went keying.words keying.flag run.chain stack.old run.stacked run.total part.now
        stack.new result.0.chain result.0.stacked result.0.total result.1.now × (length result.1.now ≤ 64) }
{
    let mut at = run;
    let mut rest = part;
    while 64 < rest.len() {
        (at, rest) = step(keying, at, stack, rest);
    }
    (at, rest)
}

// A part that begins between two blocks.
fn take_on(s: Parts, part: &[u8]) -> Parts
    requires { Ready s.stacked s.total (length part.now) × (0 < length part.now) }
    ensures { result ≡ stored s.keyed s.key
        (taken (start_of s) (flag_of s) (between (subtrees s.stack s.stacked) s.chain s.total) part.now) }
{
    let mut stack = s.stack;
    let chain = s.chain;
    let before = Run {
        chain,
        stacked: s.stacked,
        total: s.total,
    };
    let (run, rest) = steps(keying_of(s.keyed, s.key), before, &mut stack, part);
    let chain = run.chain;
    clear(&mut stack, 8 * (run.stacked as usize));
    let held = rest.len() as u64;
    Parts {
        total: run.total + held,
        held,
        stacked: run.stacked,
        chain,
        stack,
        block: block_with([0u8; 64], 0, rest),
        ..s
    }
}

// The root flag for the last block, where it is in the only chunk.
fn root_flag(stacked: u32) -> u32
    ensures { (stacked ≡ 0 → result ≡ root_node) × (0 < stacked → result ≡ 0) × (result ≤ root_node) }
{
    if stacked == 0 { ROOT as u32 } else { 0 }
}

impl Sound {
    // A part that has room in the block.
    fn put_in(self, part: &[u8]) -> Parts
        requires { self.state.held + length part.now ≤ 64 }
        ensures { result ≡ stored self.state.keyed self.state.key (put (run_of self.state) part.now) }
    {
        let s = self.state;
        let mut stack = s.stack;
        clear(&mut stack, 8 * (s.stacked as usize));
        let more = part.len() as u64;
        Parts {
            total: s.total + more,
            held: s.held + more,
            stack,
            block: block_with(s.block, s.held as usize, part),
            ..s
        }
    }

    // A part that fills the block, with bytes that follow.
    fn fill(self, part: &[u8]) -> Parts
        requires { (0 < self.state.held) × (64 < self.state.held + length part.now) × (self.state.total + length part.now ≤ 2 ^ 40) }
        ensures { result ≡ stored self.state.keyed self.state.key (taken (start_of self.state) (flag_of self.state) (run_of self.state) part.now) }
    {
        let s = self.state;
        let mut stack = s.stack;
        let held = s.held as usize;
        let space = 64 - held;
        let full = block_with(s.block, held, &part[..space]);
        let chain = s.chain;
        let before = Run {
            chain,
            stacked: s.stacked,
            total: s.total + (space as u64),
        };
        let run = go_on(keying_of(s.keyed, s.key), before, &mut stack, &full);
        let chain = run.chain;
        let next = Parts {
            total: run.total,
            held: 0,
            stacked: run.stacked,
            chain,
            stack,
            ..s
        };
        take_on(next, &part[space..])
    }

    // A part of one byte or more.
    pub(crate) fn take_in(self, part: &[u8]) -> Parts
        requires { (0 < length part.now) × (self.state.total + length part.now ≤ 2 ^ 40) }
        ensures { result ≡ stored self.state.keyed self.state.key (taken (start_of self.state) (flag_of self.state) (run_of self.state) part.now) }
    {
        let s = self.state;
        if part.len() <= 64 - s.held as usize {
            return self.put_in(part);
        }
        if s.held == 0 {
            return take_on(s, part);
        }
        self.fill(part)
    }

    // The digest: the last block ends its chunk, and the root flag is on the last compression of all.
    pub(crate) fn finish(self) -> [u8; 32]
        ensures { result ≡ ended (start_of self.state) (flag_of self.state) (run_of self.state) }
    {
        let s = self.state;
        let keying = keying_of(s.keyed, s.key);
        let n = chunks_before(s.total);
        let held = s.held as usize;
        let flags = opening(keying.flag, s.total) + CHUNK_END + root_flag(s.stacked);
        let v = compress(s.chain, load(&s.block[..held]), n, s.held as u32, flags);
        unload(root(keying, &s.stack, s.stacked, v))
    }
}
