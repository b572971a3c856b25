// What a proof letter is: taken apart, its items counted, and its record held to the leaf.
#![tactic(auto)]

ghost use Rattle.std.specs.Prelude.{◌≡◌};
ghost use Rattle.letter.specs.Checking.{taken_apart, behind_outcome, fields_outcome};

pub mod count;
pub mod leaf;

use refusals::Refused;

// What stands before the record: size, index and record length.
pub const HEAD: usize = 20;

// A letter taken apart: the index, and where the record begins and how long it is. The items follow it.
#[derive(Clone, Copy, Default, PartialEq, Eq)]
pub struct Fields {
    pub index: u64,
    pub start: usize,
    pub length: usize,
}

// The fields behind the size, for a log of n leaves. Refuses by 5, 3, 7 (exact).
pub fn behind_size(n: u64, letter: &[u8]) -> Result<Fields, Refused>
    ensures { taken_apart result ≡ behind_outcome n letter.now }
{
    let index = wire::read8(letter, 8);
    if n <= index {
        return Err(Refused::NoSuchLeaf);
    }
    let length = wire::read4(letter, 16) as usize;
    if wire::LONGEST_RECORD < length {
        return Err(Refused::RecordTooLong);
    }
    let items = count::item_count(n, index) as usize;
    if letter.len() != HEAD + length + 32 * items {
        return Err(Refused::LetterLength);
    }
    Ok(Fields {
        index,
        start: HEAD,
        length,
    })
}

// Takes a letter apart, for a log of this size with n leaves. Refuses by 7 (under 20), 8, and then by what stands behind the size.
pub fn take_apart(size: u64, n: u64, letter: &[u8]) -> Result<Fields, Refused>
    ensures { taken_apart result ≡ fields_outcome size n letter.now }
{
    if letter.len() < HEAD {
        return Err(Refused::LetterLength);
    }
    if wire::read8(letter, 0) != size {
        return Err(Refused::OtherSize);
    }
    behind_size(n, letter)
}
