// The program that panels run for a keyed log: the key (32 bytes), trusted size (8, big-endian), root (32) and one letter from standard input, the
// verdict number in decimal and a newline to standard output. It reads at most 17,501 bytes, since a longer letter gets the same number.
#![tactic(auto)]

ghost use Rattle.letter_checker.specs.Outcome.{judged_keyed};
ghost use Rattle.letter_checker.proofs.Panel.{front_keyed};

use panels::Judge;
use refusals::Refused;

// A letter of a keyed log: the longest one, with key, size and root before it, and a byte more.
struct KeyedLetter;

impl Judge<17501> for KeyedLetter {
    ghost judged = { judged_keyed };

    fn judge(input: &[u8]) -> Result<(), Refused> {
        letter_checker::judge_keyed(input)
    }

    ghost front = { front_keyed };
}

fn main(rt: HostRuntime) -> std::io::Result<()> {
    let mut input = [0u8; 17501];
    panels::answer::<KeyedLetter, _, 17501>(&rt, &mut rt.stdin(), &mut input)
}
