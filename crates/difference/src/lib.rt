// Two lists of inputs compared from the root down, and then two records: what is found, and the pair that differs.
#![tactic(auto)]

ghost use Rattle.std.specs.Prelude.{◌≡◌};
ghost use Rattle.difference.specs.Findings.{finding_of, finding_number};
ghost use Rattle.difference.specs.Outcome.{found, compare_outcome};

use refusals::Refused;

pub mod settle;

// What is found.
#[derive(Clone, Copy, Debug, PartialEq, Eq)]
pub enum Finding {
    Same,
    Records,
    Pair,
}

// What is found, as a number: 1 for "same", 2 for "records", 3 for "pair".
impl From<Finding> for u32 {
    ghost from_gives = { λ finding number. number ≡ finding_number (finding_of finding) };

    fn from(finding: Finding) -> u32 {
        match finding {
            Finding::Same => 1,
            Finding::Records => 2,
            Finding::Pair => 3,
        }
    }
}

// Compares two given lists of inputs, 64 bytes each, from the root down, and with no difference two given records, as a finder does with the log's
// and the letter's. Refuses by 6.
pub fn compare(
    ours: &[u8],
    theirs: &[u8],
    rec: &[u8],
    other: &[u8],
    first: &mut [u8],
    second: &mut [u8],
) -> Result<Finding, Refused>
    ensures { found result first.new second.new
        ≡ compare_outcome ours.now theirs.now rec.now other.now
        first.old second.old }
{
    let highest = inputs::first_difference(ours, theirs);
    let apart = wire::differ(rec, other);
    settle::settle(highest, apart, first, second)
}
