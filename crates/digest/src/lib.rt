// The digest that every other crate relies on, by its stated promise alone. A mode is 36 bytes, as C lays out a number of 32 bits and a key of 32
// bytes: number 0 is plain, and any other is keyed. It is lent, so that nothing is copied on the way down.
#![tactic(auto)]

ghost use Rattle.std.specs.Prelude.{◌≡◌, ◌++◌};
ghost use Rattle.digest.specs.Digest.{digest_in};
ghost use Rattle.digest.specs.Modes.{plain_mode, moded, key_answer, number_in, key_in};
ghost use Rattle.wire.specs.Slices.{zeros};

use refusals::Refused;

// A digest, by value.
#[derive(Clone, Copy, PartialEq, Eq)]
pub struct Digest {
    pub bytes: [u8; 32],
}

// What stands beside a refusal.
impl Default for Digest {
    ghost is_default = { λ d. d.bytes ≡ zeros 32 };

    fn default() -> Digest {
        Digest { bytes: [0; 32] }
    }
}

// The plain mode.
pub fn plain() -> [u8; 36]
    ensures { result ≡ plain_mode }
{
    [0u8; 36]
}

// The keyed mode of a key of 32 bytes: 24 for any other, and what is handed back then is for `mode_of` to say.
pub fn keyed(key: &[u8]) -> Result<[u8; 36], Refused>
    ensures { moded result ≡ key_answer key.now }
{
    let mut mode = [0u8; 36];
    mode[0] = 1;
    if key.len() != 32 {
        return Err(Refused::KeyLength);
    }
    let bytes = wire::read_digest(key, 0);
    wire::write_digest(&mut mode, 4, bytes);
    Ok(mode)
}

// The mode that a key's answer hands back. Beside a refusal it is keyed too, under a key of zeros: a caller that forgets the number does not get a plain
// log.
pub fn mode_of(answer: Result<[u8; 36], Refused>) -> [u8; 36]
    ensures { result ≡ (moded answer).mode }
{
    let Ok(mode) = answer else {
        let mut mode = [0u8; 36];
        mode[0] = 1;
        return mode;
    };
    mode
}

// A mode's number and key.
#[derive(Drop)]
struct Taken {
    number: u32,
    key: [u8; 32],
}

// Both by value: read apart in each call, they cost ten instructions more.
fn apart(mode: &[u8; 36]) -> Taken
    ensures { (result.number ≡ number_in mode.now) × (result.key ≡ key_in mode.now) }
{
    let number = wire::read4(mode, 0);
    let key = wire::read_digest(mode, 4);
    Taken { number, key }
}

// The digest of any slice.
pub fn digest_of(mode: &[u8; 36], bytes: &[u8]) -> Digest
    ensures { result.bytes ≡ digest_in mode.now bytes.now }
{
    let Taken { number, key } = apart(mode);
    Digest {
        bytes: blake::hash(number, &key, bytes),
    }
}

// The digest of two digests, left then right, 64 bytes.
pub fn digest_of_pair(mode: &[u8; 36], left: Digest, right: Digest) -> Digest
    ensures { result.bytes ≡ digest_in mode.now (left.bytes ++ right.bytes) }
{
    let Taken { number, key } = apart(mode);
    let l = left.bytes;
    let r = right.bytes;
    Digest {
        bytes: blake::hash_pair(number, &key, l, r),
    }
}
