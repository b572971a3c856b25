// The digest for C: what tools in other languages link, as libdigest_c.a. digest_c.h has the same calls for C.
#![tactic(auto)]

ghost use Rattle.std.specs.Prelude.{◌≡◌, ◌++◌};
ghost use Rattle.digest.specs.Digest.{digest_in};

use digest::Digest;

// The digest of bytes, into out.
#[unsafe(no_mangle)]
pub extern "C" fn digest_c_of(mode: &[u8; 36], bytes: &[u8], out: &mut [u8; 32])
    ensures { out.new ≡ digest_in mode.now bytes.now }
{
    let d = digest::digest_of(mode, bytes);
    out.copy_from_slice(&d.bytes);
}

// The digest of two digests, left then right, into out.
#[unsafe(no_mangle)]
pub extern "C" fn digest_c_pair(
    mode: &[u8; 36],
    left: &[u8; 32],
    right: &[u8; 32],
    out: &mut [u8; 32],
)
    ensures { out.new ≡ digest_in mode.now (left.now ++ right.now) }
{
    let d = digest::digest_of_pair(mode, Digest { bytes: *left }, Digest { bytes: *right });
    out.copy_from_slice(&d.bytes);
}
