// The answer of a finder of many records: as one of a single record gives it, and with the index of the first two records that differ.
#![tactic(auto)]

ghost use Rattle.std.specs.Prelude.{◌≡◌};
ghost use Rattle.inputs.specs.Inputs.{told};
ghost use Rattle.difference.specs.Findings.{finding_number};
ghost use Rattle.findings.specs.Outcome.{finding_of, index_of, named, apart_at, named_settled};

use difference::Finding;
use inputs::Unequal;
use refusals::Refused;

// What is found; "records" names the index of the first two that differ. An enum over what "records" names would put a type into every statement about
// `Finding`.
#[derive(Clone, Copy, Debug, PartialEq, Eq)]
pub enum Named {
    Same,
    Records(u64),
    Pair,
}

impl Named {
    // The index that "records" names, else 0.
    pub fn index(self) -> u64
        ensures { result ≡ index_of self }
    {
        match self {
            Named::Records(index) => index,
            Named::Same | Named::Pair => 0,
        }
    }
}

// What is found, as a number: 1 for "same", 2 for "records", 3 for "pair".
impl From<Named> for u32 {
    ghost from_gives = { λ named number. number ≡ finding_number (finding_of named) };

    fn from(named: Named) -> u32 {
        match named {
            Named::Same => 1,
            Named::Records(_) => 2,
            Named::Pair => 3,
        }
    }
}

// The answer by the first difference of the inputs and, with none, by the records: the index of the first two that differ. Refuses by 6, whatever the
// outcome. Of a pair ours goes into the first buffer, theirs into the second.
pub fn settle(
    highest: Option<Unequal>,
    apart: Option<u64>,
    first: &mut [u8],
    second: &mut [u8],
) -> Result<Named, Refused>
    ensures { named result first.new second.new
        ≡ named_settled (told highest) (apart_at apart) first.old second.old }
{
    let finding = difference::settle::settle(highest, apart.is_some(), first, second)?;
    match (finding, apart) {
        (Finding::Pair, _) => Ok(Named::Pair),
        (_, Some(index)) => Ok(Named::Records(index)),
        (_, None) => Ok(Named::Same),
    }
}
