// The stack of finished subtrees: eight words each, the oldest first, at most thirty. What has no place on it changes nothing.
#![tactic(auto)]

ghost use Rattle.std.specs.Prelude.{◌≡◌, ◌*◌, ◌<◌, ◌≤◌, length, take, drop};
ghost use Rattle.std.proofs.Math.Seq.{paste};
ghost use Rattle.parts_rule.specs.Subtrees.{folded};
ghost use Rattle.parts_rule.specs.Stack.{subtree_at, subtrees, padded};
ghost use Rattle.subtrees.specs.Outcome.{push_left, push_outcome, root_outcome};

pub mod counts;

use blake::flags::ROOT;
use blake::tree::parent;
use chunks::Keying;

// Subtree i. The public calls answer a slice of any length, so that the private ones ask for the 240 words.
fn subtree(stack: &[u32], i: usize) -> [u32; 8]
    requires { (length stack.now ≡ 240) × (i < 30) }
    ensures { result ≡ subtree_at stack.now i }
{
    let mut out = [0u32; 8];
    out.copy_from_slice(&stack[8 * i..8 * i + 8]);
    out
}

// The subtrees from number `from` up to `top`, folded with v, the last first.
fn fold(keying: Keying, stack: &[u32], from: usize, top: usize, v: [u32; 8]) -> [u32; 8]
    requires { (length stack.now ≡ 240) × (from ≤ top) × (top ≤ 30) }
    ensures { result ≡ folded keying.words keying.flag 0 (drop from (subtrees stack.now top)) (λ root. v) }
{
    let mut w = v;
    for at in (from..top).rev() {
        let next = parent(keying, 0, subtree(stack, at), w);
        w = next;
    }
    w
}

// Puts v down as subtree i.
fn store(stack: &mut [u32], i: usize, v: [u32; 8])
    requires { (length stack.old ≡ 240) × (i < 30) }
    ensures { stack.new ≡ paste stack.old (8 * i) v 8 }
{
    stack[8 * i..8 * i + 8].copy_from_slice(&v);
}

// Pushes the value that finishes so many chunks in all: it is folded with the subtrees that do not remain below it. How many there are then.
pub fn push(keying: Keying, stack: &mut [u32], stacked: u32, chunks: u64, v: [u32; 8]) -> u32
    ensures { push_left result stack.new ≡ push_outcome keying.words keying.flag stacked chunks v stack.old }
{
    let count = u64::count_ones(chunks);
    if stack.len() != 240 {
        return stacked;
    }
    if 30 < stacked {
        return stacked;
    }
    if count == 0 {
        return stacked;
    }
    if 30 < count {
        return stacked;
    }
    if stacked + 1 < count {
        return stacked;
    }
    let left = (count - 1) as usize;
    let w = fold(keying, stack, left, stacked as usize, v);
    store(stack, left, w);
    count
}

// The root over the subtrees and v: the subtrees, folded with v, the first with the root flag. v itself where there is none.
pub fn root(keying: Keying, stack: &[u32], stacked: u32, v: [u32; 8]) -> [u32; 8]
    ensures { result ≡ root_outcome keying.words keying.flag stacked v stack.now }
{
    if stack.len() != 240 {
        return v;
    }
    if stacked == 0 {
        return v;
    }
    if 30 < stacked {
        return v;
    }
    let w = fold(keying, stack, 1, stacked as usize, v);
    parent(keying, ROOT, subtree(stack, 0), w)
}

// Zeros from word n on.
pub fn clear(stack: &mut [u32], n: usize)
    ensures { stack.new ≡ padded (length stack.old) (take n stack.old) }
{
    if stack.len() < n {
        return;
    }
    stack[n..].fill(0);
}
