// Inputs side by side, the first two that differ, and the forks where they stand.
#![tactic(auto)]

ghost use Rattle.std.specs.Prelude.{◌≡◌, ◌*◌, ◌^◌, ◌≤◌};
ghost use Rattle.digest.specs.Digest.{digest_in};
ghost use Rattle.wire.specs.Slices.{part, bit, differ};
ghost use Rattle.inputs.specs.Given.{in_both, given_difference};
ghost use Rattle.inputs.specs.Inputs.{bytes_of, beside, told, above};

pub mod fork;

use digest::Digest;

// What is hashed at a place: two digests, left then right, 64 bytes.
#[derive(Clone, Copy, PartialEq, Eq)]
pub struct Input {
    pub left: Digest,
    pub right: Digest,
}

// Two inputs at one place that differ.
#[derive(Clone, Copy, PartialEq, Eq)]
pub struct Unequal {
    pub ours: Input,
    pub theirs: Input,
}

// Whether two digests differ, as `differ` has it of their bytes: the finders' statements read it so, which a derived `!=` would not say.
pub fn digests_differ(a: Digest, b: Digest) -> bool
    ensures { bit result ≡ differ a.bytes b.bytes }
{
    wire::differ(&a.bytes, &b.bytes)
}

// Whether two inputs differ. The derived `!=` says the same of the fields, this clause of the 64 bytes, which the finders' laws compare.
pub fn inputs_differ(a: Input, b: Input) -> bool
    ensures { bit result ≡ differ (bytes_of a) (bytes_of b) }
{
    digests_differ(a.left, b.left) || digests_differ(a.right, b.right)
}

// The digest of an input, where another has the digest `other`: that one, unless the two are apart.
pub fn digest_beside(mode: &[u8; 36], input: Input, apart: bool, other: Digest) -> Digest
    ensures { result.bytes ≡ beside apart (digest_in mode.now (bytes_of input)) other.bytes }
{
    if !apart {
        return other;
    }
    digest::digest_of_pair(mode, input.left, input.right)
}

// The digest of a record, where another has the digest `other`: that one, unless the two are apart.
pub fn record_beside(mode: &[u8; 36], rec: &[u8], apart: bool, other: Digest) -> Digest
    ensures { result.bytes ≡ beside apart (digest_in mode.now rec.now) other.bytes }
{
    if !apart {
        return other;
    }
    digest::digest_of(mode, rec)
}

// The first difference with two inputs more above: these where they are apart, else the one below.
pub fn higher(below: Option<Unequal>, apart: bool, ours: Input, theirs: Input) -> Option<Unequal>
    ensures { told result ≡ above (bit apart) (bytes_of ours) (bytes_of theirs) (told below) }
{
    if apart {
        Some(Unequal { ours, theirs })
    } else {
        below
    }
}

// Input number k of a list.
fn input_at(list: &[u8], k: u64) -> Input
    requires { k ≤ 2 ^ 58 }
    ensures { bytes_of result ≡ part (64 * k) 64 list.now }
{
    let left = nodes::node_at(list, 2 * k);
    let right = nodes::node_at(list, 2 * k + 1);
    Input { left, right }
}

// As many inputs as both lists have.
fn in_both(ours: &[u8], theirs: &[u8]) -> u64
    ensures { (result ≡ in_both ours.now theirs.now) × (result ≤ 2 ^ 58) }
{
    ours.len().min(theirs.len()) as u64 / 64
}

// The first difference of two given lists of inputs, from the last input up, as a walk comes back.
pub fn first_difference(ours: &[u8], theirs: &[u8]) -> Option<Unequal>
    ensures { told result ≡ given_difference ours.now theirs.now }
{
    let mut first = None;
    for k in (0..in_both(ours, theirs)).rev() {
        let a = input_at(ours, k);
        let b = input_at(theirs, k);
        first = higher(first, inputs_differ(a, b), a, b);
    }
    first
}
