// The compression function.
ghost use Rattle.std.specs.Prelude.{◌≡◌, ◌<◌, [], ◌∷◌};
ghost use Rattle.compression.specs.Compression.{turn_right, mixed, columned, diagonaled, rounds, permuted, halved, begun, compressed};

// The starting words.
pub const START: [u32; 8] = [
    0x6A09E667, 0xBB67AE85, 0x3C6EF372, 0xA54FF53A, 0x510E527F, 0x9B05688C, 0x1F83D9AB, 0x5BE0CD19,
];

// P: new word i is old word ORDER[i].
const ORDER: [usize; 16] = [2, 6, 3, 10, 7, 0, 4, 13, 1, 11, 12, 5, 9, 14, 15, 8];

// Four words, mixed with x and y.
fn mix(a: u32, b: u32, c: u32, d: u32, x: u32, y: u32) -> [u32; 4]
    ensures { result ≡ mixed a b c d x y }
{
    let a1 = a.wrapping_add(b).wrapping_add(x);
    let d1 = (d ^ a1).rotate_right(16);
    let c1 = c.wrapping_add(d1);
    let b1 = (b ^ c1).rotate_right(12);
    let a2 = a1.wrapping_add(b1).wrapping_add(y);
    let d2 = (d1 ^ a2).rotate_right(8);
    let c2 = c1.wrapping_add(d2);
    let b2 = (b1 ^ c2).rotate_right(7);
    [a2, b2, c2, d2]
}

// The columns of s, mixed with the first eight words of m. The four mixes may come in any order: this one, and that of the
// diagonals, leave the compiler the fewest moves (docs/BENCH.md).
fn columns(s: [u32; 16], m: [u32; 16]) -> [u32; 16]
    ensures { result ≡ columned s m }
{
    let u = mix(s[3], s[7], s[11], s[15], m[6], m[7]);
    let p = mix(s[0], s[4], s[8], s[12], m[0], m[1]);
    let t = mix(s[2], s[6], s[10], s[14], m[4], m[5]);
    let q = mix(s[1], s[5], s[9], s[13], m[2], m[3]);
    [
        p[0], q[0], t[0], u[0], p[1], q[1], t[1], u[1], p[2], q[2], t[2], u[2], p[3], q[3], t[3],
        u[3],
    ]
}

// The diagonals of s, mixed with the last eight words of m.
fn diagonals(s: [u32; 16], m: [u32; 16]) -> [u32; 16]
    ensures { result ≡ diagonaled s m }
{
    let t = mix(s[2], s[7], s[8], s[13], m[12], m[13]);
    let u = mix(s[3], s[4], s[9], s[14], m[14], m[15]);
    let p = mix(s[0], s[5], s[10], s[15], m[8], m[9]);
    let q = mix(s[1], s[6], s[11], s[12], m[10], m[11]);
    [
        p[0], q[0], t[0], u[0], u[1], p[1], q[1], t[1], t[2], u[2], p[2], q[2], q[3], t[3], u[3],
        p[3],
    ]
}

// New word i is old word ORDER[i].
fn permute(m: [u32; 16]) -> [u32; 16]
    ensures { result ≡ permuted m }
{
    let mut out = [0u32; 16];
    for i in 0..16 {
        out[i] = m[ORDER[i]];
    }
    out
}

// Seven rounds, the message permuted between them.
#[inline(always)]
fn seven(s: [u32; 16], m: [u32; 16]) -> [u32; 16]
    ensures { result ≡ rounds 7 s m }
{
    let t1 = diagonals(columns(s, m), m);
    let m1 = permute(m);
    let t2 = diagonals(columns(t1, m1), m1);
    let m2 = permute(m1);
    let t3 = diagonals(columns(t2, m2), m2);
    let m3 = permute(m2);
    let t4 = diagonals(columns(t3, m3), m3);
    let m4 = permute(m3);
    let t5 = diagonals(columns(t4, m4), m4);
    let m5 = permute(m4);
    let t6 = diagonals(columns(t5, m5), m5);
    let m6 = permute(m5);
    diagonals(columns(t6, m6), m6)
}

// The sixteen words that a compression starts from. The counter has 64 bits.
fn begin(cv: [u32; 8], n: u64, len: u32, flags: u32) -> [u32; 16]
    ensures { result ≡ begun cv n len flags }
{
    let low = (n % 4294967296) as u32;
    let high = (n / 4294967296) as u32;
    [
        cv[0], cv[1], cv[2], cv[3], cv[4], cv[5], cv[6], cv[7], START[0], START[1], START[2],
        START[3], low, high, len, flags,
    ]
}

// Result word i is word i xor word i + 8.
fn halve(s: [u32; 16]) -> [u32; 8]
    ensures { result ≡ halved s }
{
    let mut out = [0u32; 8];
    for i in 0..8 {
        out[i] = s[i] ^ s[i + 8];
    }
    out
}

// One compression, opened at each call: only so does the loop over the lanes become vector code (bench/lanes.sh).
#[inline(always)]
pub fn compress_lane(cv: [u32; 8], m: [u32; 16], n: u64, len: u32, flags: u32) -> [u32; 8]
    ensures { result ≡ compressed cv m n len flags }
{
    halve(seven(begin(cv, n, len, flags), m))
}

// One compression.
pub fn compress(cv: [u32; 8], m: [u32; 16], n: u64, len: u32, flags: u32) -> [u32; 8]
    ensures { result ≡ compressed cv m n len flags }
{
    compress_lane(cv, m, n, len, flags)
}
