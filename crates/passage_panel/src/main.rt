// The program that panels run for a passage: trusted size (8 bytes, big-endian), root (32) and one passage letter from standard input, the verdict
// number in decimal and a newline to standard output. It reads at most 4,459,571 bytes, since a longer letter gets the same number.
#![tactic(auto)]

ghost use Rattle.digest.specs.Digest.{digest_of};
ghost use Rattle.passage_checker.specs.Outcome.{judged};
ghost use Rattle.passage_checker.proofs.Panel.{front_judged};

use panels::Judge;
use refusals::Refused;

// A passage letter of a plain log: more bytes than the longest one has, with size and root before it.
struct Passage;

impl Judge<4459571> for Passage {
    ghost judged = { judged digest_of };

    fn judge(input: &[u8]) -> Result<(), Refused> {
        passage_checker::judge(&digest::plain(), input)
    }

    ghost front = { front_judged digest_of };
}

// The one buffer is lent and never copied.
fn main(rt: HostRuntime) -> std::io::Result<()> {
    let mut input = [0u8; 4459571];
    panels::answer::<Passage, _, 4459571>(&rt, &mut rt.stdin(), &mut input)
}
