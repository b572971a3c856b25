// BLAKE3 with 32 bytes of output, plain or keyed: the hash of any slice, and of two digests.
#![tactic(auto)]

ghost use Rattle.std.specs.Prelude.{◌≡◌, ◌++◌};
ghost use Rattle.blake.specs.Blake.{hash_in};
ghost use Rattle.blake.specs.Modes.{words_in, flag_in};

pub mod flags;
pub mod tree;

use chunks::Keying;
use compression::compress::START;
use words::load_half;

// The words that chaining begins with: the starting words, or the key's.
fn words_in(keyed: u32, key: &[u8; 32]) -> [u32; 8]
    ensures { result ≡ words_in keyed key.now }
{
    if keyed == 0 {
        return START;
    }
    load_half(key)
}

// The flag on every compression.
pub fn flag_in(keyed: u32) -> u8
    ensures { result ≡ flag_in keyed }
{
    if keyed == 0 {
        return 0;
    }
    flags::KEYED
}

// What a mode puts into each compression.
fn keying_in(keyed: u32, key: &[u8; 32]) -> Keying
    ensures words { result.words ≡ words_in keyed key.now }
    ensures flag { result.flag ≡ flag_in keyed }
{
    let words = words_in(keyed, key);
    Keying {
        words,
        flag: flag_in(keyed),
    }
}

// The hash of any slice: 0 is plain, and any other number is keyed.
pub fn hash(keyed: u32, key: &[u8; 32], bytes: &[u8]) -> [u8; 32]
    ensures { result ≡ hash_in keyed key.now bytes.now }
{
    tree::digest_in(keying_in(keyed, key), bytes)
}

// The hash of two digests, left then right: 64 bytes, one compression.
pub fn hash_pair(keyed: u32, key: &[u8; 32], left: [u8; 32], right: [u8; 32]) -> [u8; 32]
    ensures { result ≡ hash_in keyed key.now (left ++ right) }
{
    tree::pair_in(keying_in(keyed, key), left, right)
}
