// The bytes that a crate is given: records of any length, letters that state other numbers, and front parts.
ghost use Rattle.std.specs.Prelude.{◌≡◌, length, take};
ghost use Rattle.wire.specs.Lent.{lent};
ghost use Rattle.runs.specs.Given.{record_of, length_of, restated, front_of};

// The lengths of the records of a log, over and over.
const LENGTHS: [usize; 5] = [0, 1, 31, 200, 16384];

// The length of record k of a log.
pub fn length_of(k: usize) -> usize
    ensures { result ≡ length_of k }
{
    LENGTHS[k % 5]
}

// Fills out with record i: byte j is (7i + j) mod 251.
pub fn fill(i: usize, out: &mut [u8])
    ensures { out.new ≡ record_of i (length out.old) }
{
    let first = 7 * (i % 251);
    for (j, x) in out.iter_mut().enumerate() {
        *x = ((first + j % 251) % 251) as u8;
    }
}

// Record i, of as many bytes as are asked for.
pub fn filled<const N: usize>(i: usize) -> [u8; N]
    ensures { result ≡ record_of i N }
{
    let mut out = [0u8; N];
    fill(i, &mut out);
    out
}

// Record i, with one byte more than a record can have.
pub fn record_of(i: usize) -> [u8; 16385]
    ensures { result ≡ record_of i 16385 }
{
    filled(i)
}

// A letter made to state another size, index and record length. What is written first over too many bytes is written over again.
pub fn restate(letter: &mut [u8], named: u64, index: u64, stated: u64)
    ensures { letter.new ≡ restated named index stated letter.old }
{
    wire::write8(letter, 12, stated);
    wire::write8(letter, 8, index);
    wire::write8(letter, 0, named);
}

// The first n of a list, or all where there are fewer.
pub fn first_of<'a, T>(list: &'a [T], n: usize) -> &'a [T]
    ensures { result.now ≡ take n list.now }
{
    list.get(..n).unwrap_or(list)
}

// The first n bytes, or all where there are fewer: as `first_of`, and where they lie is said too.
pub fn front<'a>(bytes: &'a [u8], n: usize) -> &'a [u8]
    ensures { lent result ≡ front_of n bytes.entry }
{
    &bytes[..n.min(bytes.len())]
}
