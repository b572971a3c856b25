// 32 bytes in hexadecimal, as a digest is printed.
#![tactic(auto)]

ghost use Rattle.std.specs.Prelude.{◌≡◌, ◌/◌, ◌%◌, ◌<◌};
ghost use Rattle.hex_digits.specs.Hex.{digit_of, hex_of};

// The digit of n, in ASCII.
#[tactic(auto, unfolding(crate::specs::Hex::digit_of))]
fn digit(n: u8) -> u8
    requires { n < 16 }
    ensures { result ≡ digit_of n }
{
    if n < 10 { b'0' + n } else { b'a' + (n - 10) }
}

// The digit of a byte's upper half.
fn high(b: u8) -> u8
    ensures { result ≡ digit_of (b / 16) }
{
    digit(b / 16)
}

// The digit of a byte's lower half.
fn low(b: u8) -> u8
    ensures { result ≡ digit_of (b % 16) }
{
    digit(b % 16)
}

// The 64 digits of 32 bytes.
pub fn digits_of(bytes: [u8; 32]) -> [u8; 64]
    ensures { result ≡ hex_of bytes }
{
    let mut out = [0u8; 64];
    for (i, &b) in bytes.iter().enumerate() {
        out[2 * i] = high(b);
        out[2 * i + 1] = low(b);
    }
    out
}
