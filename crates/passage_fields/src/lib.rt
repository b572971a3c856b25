// A passage letter taken apart: its records, one behind the other, each where it stands in the letter.
#![tactic(auto)]

ghost use Rattle.std.specs.Prelude.{◌≡◌, ◌≤◌, length};
ghost use Rattle.order.specs.Order.{first_number};
ghost use Rattle.refusals.specs.Numbers.{number_in};
ghost use Rattle.wire.specs.Lent.{lent};
ghost use Rattle.passage.specs.Bytes.{index_at, stated_at};
ghost use Rattle.passage_fields.specs.Fields.{taken_apart, front_outcome, fields_outcome, record_part};
ghost use Rattle.passage.specs.Checking.{record_order};
ghost use Rattle.passage_fields.specs.Steps.{rest_part, Ready, records_outcome};

use passage::count::digest_count;
use passage::{FRAME, HEAD, MOST_RECORDS};
use refusals::Refused;

// A letter taken apart: how many records there are, the place behind them, their indexes, and the places where their 12 bytes begin, with zeros
// behind these. There is no heap; and the indexes are an array of their own, since a walk is lent them alone.
#[derive(Drop)]
pub struct Fields {
    pub count: usize,
    pub end: usize,
    pub indexes: [u64; 256],
    pub places: [usize; 256],
}

// The index of the record whose 12 bytes begin at a place. From a slice that begins there it is one load.
fn index_at(letter: &[u8], at: usize) -> u64
    ensures { result ≡ index_at letter.now at }
{
    let Some(rest) = letter.get(at..) else {
        return 0;
    };
    wire::read8(rest, 0)
}

// The stated length of the record whose 12 bytes begin at a place: as `index_at`, of another width.
pub fn stated_at(letter: &[u8], at: usize) -> usize
    ensures { result ≡ stated_at letter.now at }
{
    let Some(rest) = letter.get(at..) else {
        return 0;
    };
    wire::read4(rest, 8) as usize
}

// What follows the 12 bytes at a place; past the end, the empty part at the end.
fn rest_at<'a>(letter: &'a [u8], at: usize) -> &'a [u8]
    ensures { lent result ≡ rest_part at letter.entry }
{
    let start = at.saturating_add(FRAME).min(letter.len());
    &letter[start..]
}

// The record whose 12 bytes begin at a place, as a part of the letter and as far as it goes; past the end, the empty part at the end.
pub fn record_at<'a>(letter: &'a [u8], at: usize) -> &'a [u8]
    ensures { lent result ≡ record_part at letter.entry }
{
    let stated = stated_at(letter, at);
    let rest = rest_at(letter, at);
    let length = stated.min(rest.len());
    &rest[..length]
}

// What one record is refused with, whose index must not be below the floor.
fn refusal_at(n: u64, letter: &[u8], at: usize, floor: u64) -> Result<(), Refused>
    requires { at ≤ length letter.now }
    ensures { number_in result ≡ first_number (record_order n letter.now at floor) }
{
    let rest = letter.len() - at;
    if rest < FRAME {
        return Err(Refused::LetterLength);
    }
    let index = index_at(letter, at);
    let stated = stated_at(letter, at);
    if index < floor {
        return Err(Refused::NotRising);
    }
    if n <= index {
        return Err(Refused::NoSuchLeaf);
    }
    if wire::LONGEST_RECORD < stated {
        return Err(Refused::RecordTooLong);
    }
    if rest < FRAME + stated {
        return Err(Refused::LetterLength);
    }
    Ok(())
}

// So many records, one behind the other. Refuses by 7, 19, 5, 3, 7 for each in turn. It and `take_front` are opened at each call: only so is no whole
// answer zeroed and copied (bench/passage.sh).
#[inline(always)]
fn take_records(n: u64, letter: &[u8], count: usize) -> Result<Fields, Refused>
    requires { Ready letter.now count }
    ensures { taken_apart result ≡ records_outcome n letter.now count }
{
    let mut indexes = [0u64; 256];
    let mut places = [0usize; 256];
    let mut at = HEAD;
    let mut floor: u64 = 0;
    // place k of two arrays is written
    for k in 0..count {
        refusal_at(n, letter, at, floor)?;
        let index = index_at(letter, at);
        indexes[k] = index;
        places[k] = at;
        floor = index + 1;
        at = at + FRAME + stated_at(letter, at);
    }
    Ok(Fields {
        count,
        end: at,
        indexes,
        places,
    })
}

// Takes a letter apart but for its exact length, for a log of this size with n leaves. Refuses by 7 (under 10), 8, 19; for each record 7, 19, 5, 3,
// 7.
#[inline(always)]
pub fn take_front(size: u64, n: u64, letter: &[u8]) -> Result<Fields, Refused>
    ensures { taken_apart result ≡ front_outcome size n letter.now }
{
    if letter.len() < HEAD {
        return Err(Refused::LetterLength);
    }
    if wire::read8(letter, 0) != size {
        return Err(Refused::OtherSize);
    }
    let count = wire::read2(letter, 8) as usize;
    if count < 1 || MOST_RECORDS < count {
        return Err(Refused::NotRising);
    }
    take_records(n, letter, count)
}

// Takes a letter apart, for a log of this size with n leaves. Refuses as `take_front` does, and then by 7 (exact). The indexes are lent by
// themselves: lent as a part of the answer they would have it zeroed whole (bench/passage.sh).
pub fn take_apart(size: u64, n: u64, letter: &[u8]) -> Result<Fields, Refused>
    ensures { taken_apart result ≡ fields_outcome size n letter.now }
{
    let f = take_front(size, n, letter)?;
    let indexes = f.indexes;
    let digests = digest_count(n, &indexes[..f.count]) as usize;
    if letter.len() != f.end + 32 * digests {
        return Err(Refused::LetterLength);
    }
    Ok(f)
}
