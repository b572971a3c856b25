// The digest of standard input, of any length up to 2^40 bytes, in hexadecimal. There is no heap: the input is read in parts of 65,536 bytes.
#![tactic(auto)]

ghost use Rattle.std.specs.Prelude.{◌≡◌, length, IfOk};
ghost use Rattle.hex_digits.specs.Hex.{hex_of};
ghost use Rattle.refusals.specs.Numbers.{number_in};
ghost use Rattle.parts.specs.Answers.{end_outcome};

use parts::Parts;
use refusals::Refused;
use std::io;
use std::io::Read;

// The digest of what a state holds, in hexadecimal.
fn digits(state: Parts) -> Result<[u8; 64], Refused>
    ensures number { number_in result ≡ (end_outcome state).number }
    ensures digits { IfOk result (λ text. text ≡ hex_of (end_outcome state).digest.bytes) }
{
    let digest = parts::end(state)?;
    Ok(hex_digits::digits_of(digest.bytes))
}

// Reads one byte more: whether the input has ended, with a line for the user where it cannot be read.
fn ended(stderr: &impl Print, stdin: &mut impl Read) -> io::Result<bool> {
    let mut next = [0u8; 1];
    if let Ok(0) = stdin.read(&mut next) {
        return Ok(true);
    }
    stderr.write_all(b"digest_input: the input cannot be read\n")?;
    Ok(false)
}

// The digits of standard input, taken part after part, up to the first that is not whole; 17 where there is too much of it. 2^24 parts are 2^40 bytes.
fn taken(stdin: &mut impl Read) -> Result<[u8; 64], Refused> {
    let mut state = parts::begin(&digest::plain());
    let mut buf = [0u8; 65536];
    for _ in 0..16777217u32 {
        let n = streams::read_full(stdin, &mut buf);
        state = parts::add(state, &buf[..n])?;
        if n < buf.len() {
            return digits(state);
        }
    }
    Err(Refused::PartsTooLong)
}

fn main(rt: HostRuntime) -> io::Result<()> {
    let mut stdin = rt.stdin();
    let Ok(text) = taken(&mut stdin) else {
        return rt.stderr().write_all(
            b"digest_input: the input has more than 1099511627776 bytes\n",
        );
    };
    if ended(&rt.stderr(), &mut stdin)? {
        rt.write_all(&text)?;
        rt.write_all(b"\n")?;
    }
    Ok(())
}
