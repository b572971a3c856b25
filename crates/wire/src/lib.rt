// Numbers as big-endian bytes, digests and runs of bytes in lent slices. Each public call has an answer for every input:
// a byte past the end reads as 0, and a write that does not fit wholly changes nothing.
#![tactic(auto)]

ghost use Rattle.std.specs.Prelude.{◌≡◌, [], ◌∷◌, ◌≤◌, length, drop, get_or};
ghost use Rattle.wire.specs.Numbers.{be, number};
ghost use Rattle.wire.specs.Slices.{zeros, part, written, bit, differ};

// The most bytes of a record.
pub const LONGEST_RECORD: usize = 16384;

// Reads the byte at a place.
pub fn read_byte(s: &[u8], at: usize) -> u8
    ensures { result ≡ get_or s.now at 0 }
{
    s.get(at).copied().unwrap_or(0)
}

// Reads the N bytes from a place on.
fn read<const N: usize>(s: &[u8], at: usize) -> [u8; N]
    ensures { result ≡ part at N s.now }
{
    let mut b = [0u8; N];
    read_run(s, at, &mut b);
    b
}

// Reads the number in the two bytes from a place on. A width stands in the name: the number of more than eight bytes fits no type.
pub fn read2(s: &[u8], at: usize) -> u32
    ensures { result ≡ number (part at 2 s.now) }
{
    value_of(&read::<2>(s, at))
}

// Reads the number in the four bytes from a place on.
pub fn read4(s: &[u8], at: usize) -> u32
    ensures { result ≡ number (part at 4 s.now) }
{
    value_of(&read::<4>(s, at))
}

// Reads the number in the eight bytes from a place on. It is put together from two halves, which the compiler makes one load.
pub fn read8(s: &[u8], at: usize) -> u64
    ensures { result ≡ number (part at 8 s.now) }
{
    let b = read::<8>(s, at);
    let high = value_of(&b[0..4]);
    let low = value_of(&b[4..8]);
    high as u64 * 4294967296 + low as u64
}

// Reads the digest in the 32 bytes from a place on.
pub fn read_digest(s: &[u8], at: usize) -> [u8; 32]
    ensures { result ≡ part at 32 s.now }
{
    read::<32>(s, at)
}

// Reads the bytes from a place on, over the whole of d.
pub fn read_run(s: &[u8], at: usize, d: &mut [u8])
    ensures { d.new ≡ part at (length d.old) s.now }
{
    let rest = tail(s, at);
    let n = d.len();
    let m = rest.len();
    if n <= m {
        d.copy_from_slice(&rest[..n]);
        return;
    }
    d[..m].copy_from_slice(rest);
    clear(&mut d[m..]);
}

// The bytes from a place to the end.
fn tail<'a>(s: &'a [u8], at: usize) -> &'a [u8]
    ensures { result.now ≡ drop at s.now }
{
    let n = s.len();
    if n < at {
        return &s[n..];
    }
    &s[at..]
}

// Zeros over the whole of d.
fn clear(d: &mut [u8])
    ensures { d.new ≡ zeros (length d.old) }
{
    d.fill(0);
}

// The number that at most four bytes are.
fn value_of(b: &[u8]) -> u32
    requires { length b.now ≤ 4 }
    ensures { result ≡ number b.now }
{
    let mut n: u32 = 0;
    for &x in b {
        n = n * 256 + x as u32;
    }
    n
}

// Writes a byte at a place.
pub fn write_byte(d: &mut [u8], at: usize, b: u8)
    ensures { d.new ≡ written at (b ∷ []) d.old }
{
    if at < d.len() {
        d[at] = b;
    }
}

// Writes a number over the two bytes from a place on. A width stands in the name: a call for any width would ask that so many bytes fit in memory.
pub fn write2(d: &mut [u8], at: usize, n: u32)
    ensures { d.new ≡ written at (be 2 n) d.old }
{
    write_run(d, at, &spelled::<2>(n as u64));
}

// Writes a number over the four bytes from a place on.
pub fn write4(d: &mut [u8], at: usize, n: u32)
    ensures { d.new ≡ written at (be 4 n) d.old }
{
    write_run(d, at, &spelled::<4>(n as u64));
}

// Writes a number over the eight bytes from a place on.
pub fn write8(d: &mut [u8], at: usize, n: u64)
    ensures { d.new ≡ written at (be 8 n) d.old }
{
    write_run(d, at, &spelled::<8>(n));
}

// Writes a digest over the 32 bytes from a place on.
pub fn write_digest(d: &mut [u8], at: usize, x: [u8; 32])
    ensures { d.new ≡ written at x d.old }
{
    write_run(d, at, &x);
}

// Writes a run of bytes from a place on.
pub fn write_run(d: &mut [u8], at: usize, s: &[u8])
    ensures { d.new ≡ written at s.now d.old }
{
    let n = s.len();
    if d.len() < at {
        return;
    }
    if d.len() - at < n {
        return;
    }
    d[at..at + n].copy_from_slice(s);
}

// The low bytes of a number.
fn spelled<const N: usize>(n: u64) -> [u8; N]
    ensures { result ≡ be N n }
{
    let mut b = [0u8; N];
    spell(&mut b, n);
    b
}

// The low bytes of a number, over the whole of d.
fn spell(d: &mut [u8], n: u64)
    ensures { d.new ≡ be (length d.old) n }
{
    let mut left = n;
    for i in (0..d.len()).rev() {
        d[i] = (left % 256) as u8;
        left = left / 256;
    }
}

// Whether two runs differ. It looks at every byte, which the compiler makes vector code.
pub fn differ(a: &[u8], b: &[u8]) -> bool
    ensures { bit result ≡ differ a.now b.now }
{
    if a.len() != b.len() {
        return true;
    }
    let n = a.len();
    let mut found = false;
    for i in 0..n {
        if a[i] != b[i] {
            found = true;
        }
    }
    found
}
