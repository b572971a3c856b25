// The program that panels run: trusted size (8 bytes, big-endian), root (32) and one letter from standard input, the verdict number in
// decimal and a newline to standard output. It reads at most 17,469 bytes, since a longer letter gets the same number.
#![tactic(auto)]

ghost use Rattle.digest.specs.Digest.{digest_of};
ghost use Rattle.letter_checker.specs.Outcome.{judged};
ghost use Rattle.letter_checker.proofs.Panel.{front_judged};

use panels::Judge;
use refusals::Refused;

// A letter of a plain log: the longest one, with size and root before it, and a byte more.
struct Letter;

impl Judge<17469> for Letter {
    ghost judged = { judged digest_of };

    fn judge(input: &[u8]) -> Result<(), Refused> {
        letter_checker::judge(&digest::plain(), input)
    }

    ghost front = { front_judged digest_of };
}

// Each of the four programs has a `main`, with a buffer of its own size.
fn main(rt: HostRuntime) -> std::io::Result<()> {
    let mut input = [0u8; 17469];
    panels::answer::<Letter, _, 17469>(&rt, &mut rt.stdin(), &mut input)
}
