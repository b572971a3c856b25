// Why a call refuses: a name for each number of RULES 2.
#![tactic(auto)]

ghost use Rattle.std.specs.Prelude.{◌≡◌};
ghost use Rattle.refusals.specs.Numbers.{number_of, number_in};

use std::error::Error;
use std::fmt;

// Why a call refuses. A number means the same in every call.
#[derive(Clone, Copy, Debug, PartialEq, Eq)]
pub enum Refused {
    NoSuchSize,
    LogFull,
    RecordTooLong,
    NodesTooShort,
    NoSuchLeaf,
    OutputTooShort,
    LetterLength,
    OtherSize,
    OtherRoot,
    EmptyLog,
    NotANode,
    RootLength,
    OtherRecord,
    BrokenNode,
    WrongLengths,
    PartsTooLong,
    OtherDigest,
    NotRising,
    KeyLength,
}

impl From<Refused> for u32 {
    ghost from_gives = { λ why number. number ≡ number_of why };

    fn from(why: Refused) -> u32 {
        match why {
            Refused::NoSuchSize => 1,
            Refused::LogFull => 2,
            Refused::RecordTooLong => 3,
            Refused::NodesTooShort => 4,
            Refused::NoSuchLeaf => 5,
            Refused::OutputTooShort => 6,
            Refused::LetterLength => 7,
            Refused::OtherSize => 8,
            Refused::OtherRoot => 9,
            Refused::EmptyLog => 10,
            Refused::NotANode => 11,
            Refused::RootLength => 12,
            Refused::OtherRecord => 13,
            Refused::BrokenNode => 14,
            Refused::WrongLengths => 16,
            Refused::PartsTooLong => 17,
            Refused::OtherDigest => 18,
            Refused::NotRising => 19,
            Refused::KeyLength => 24,
        }
    }
}

impl fmt::Display for Refused {
    fn fmt<W: fmt::Write>(&self, f: &mut fmt::Formatter<W>) -> fmt::Result {
        f.write_str(match self {
            Refused::NoSuchSize => "no leaf count has this size",
            Refused::LogFull => "the log is full",
            Refused::RecordTooLong => "a record is too long",
            Refused::NodesTooShort => "the node buffer is too short",
            Refused::NoSuchLeaf => "the log has no such leaf",
            Refused::OutputTooShort => "an output buffer is too short",
            Refused::LetterLength => "the letter is not of its exact length",
            Refused::OtherSize => "the letter names another size",
            Refused::OtherRoot => "the letter gives another root",
            Refused::EmptyLog => "an empty log has no root",
            Refused::NotANode => "the bytes are no stored node",
            Refused::RootLength => "the trusted root is not 32 bytes",
            Refused::OtherRecord => "the record is not the one that was logged",
            Refused::BrokenNode => "a node is not the digest of its children",
            Refused::WrongLengths => "the lengths do not add up to the records",
            Refused::PartsTooLong => "the input in parts is too long, or its state is damaged",
            Refused::OtherDigest => "a stored leaf has another record's digest",
            Refused::NotRising => "the indexes are no request",
            Refused::KeyLength => "the key is not 32 bytes",
        })
    }
}

impl Error for Refused {}

// The number that a call answers: 0 where it is done.
pub fn number<T>(answer: &Result<T, Refused>) -> u32
    ensures { result ≡ number_in answer.now }
{
    match answer {
        Ok(_) => 0,
        Err(why) => u32::from(*why),
    }
}
