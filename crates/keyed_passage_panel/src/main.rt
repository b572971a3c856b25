// The program that panels run for a passage of a keyed log: the key (32 bytes), trusted size (8, big-endian), root (32) and one passage letter from
// standard input, the verdict number in decimal and a newline to standard output. It reads at most 4,459,603 bytes, since a longer letter gets the
// same number.
#![tactic(auto)]

ghost use Rattle.passage_checker.specs.Outcome.{judged_keyed};
ghost use Rattle.passage_checker.proofs.Panel.{front_keyed};

use panels::Judge;
use refusals::Refused;

// A passage letter of a keyed log: more bytes than the longest one has, with key, size and root before it.
struct KeyedPassage;

impl Judge<4459603> for KeyedPassage {
    ghost judged = { judged_keyed };

    fn judge(input: &[u8]) -> Result<(), Refused> {
        passage_checker::judge_keyed(input)
    }

    ghost front = { front_keyed };
}

// The one buffer is lent and never copied.
fn main(rt: HostRuntime) -> std::io::Result<()> {
    let mut input = [0u8; 4459603];
    panels::answer::<KeyedPassage, _, 4459603>(&rt, &mut rt.stdin(), &mut input)
}
