// The program that panels run, whatever it judges: an input from standard input, its verdict number in decimal to standard output.
#![tactic(auto)]

ghost use Rattle.std.specs.Prelude.{◌≡◌, ◌≤◌, List, ℕ, take};
ghost use Rattle.std.specs.Io.KnownBytes.{Consumes};
ghost use Rattle.io.specs.Counts.{IsPrefixLen};
ghost use Rattle.io.specs.Digits.{last_digits, IsDigitCount};
ghost use Rattle.refusals.specs.Numbers.{number_in};

use refusals::Refused;
use std::io::{Read, Result};

// What a program judges, by the first N bytes of its input at most: more of them change nothing.
pub trait Judge<const N: usize> {
    ghost judged: { List ℕ → ℕ };

    fn judge(input: &[u8]) -> std::result::Result<(), Refused>
        ensures { number_in result ≡ judged input.now };

    ghost front: { (whole : List ℕ) → judged (take N whole) ≡ judged whole };
}

// The verdict number in decimal, by the fewest digits, at the start of out; how many they are.
pub fn verdict<J: Judge<N>, const N: usize>(input: &[u8], out: &mut [u8; 20]) -> usize
    ensures within { IsPrefixLen result out.new }
    ensures count { (whole : List ℕ) → input.now ≡ take N whole → IsDigitCount 10 1 (J.judged whole) result }
    ensures digits { (whole : List ℕ) → input.now ≡ take N whole → take result out.new ≡ last_digits 10 result (J.judged whole) }
{
    let number = refusals::number(&J::judge(input));
    io::decimal(number as u64, out)
}

// Fills the buffer from standard input, and writes the verdict on what was read: of an input whose bytes are known, the first ones, as many as there is
// room for.
pub fn answer<J: Judge<N>, R: Read, const N: usize>(
    rt: &impl Print,
    stdin: &mut R,
    input: &mut [u8; N],
) -> Result<()>
    ensures { (n : ℕ) × (n ≤ N) × Consumes (R.remaining stdin.old) (R.remaining stdin.new) (take n input.new) }
{
    let n = streams::read_full(stdin, input);
    let mut text = [0u8; 20];
    let k = verdict::<J, N>(&input[..n], &mut text);
    rt.write_all(&text[..k])?;
    rt.write_all(b"\n")
}
