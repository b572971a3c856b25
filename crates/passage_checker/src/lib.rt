// A passage letter checked against a size and a root that the caller trusts.
#![tactic(auto)]

ghost use Rattle.std.specs.Prelude.{◌≡◌};
ghost use Rattle.digest.specs.Digest.{digest_in};
ghost use Rattle.refusals.specs.Numbers.{number_in};
ghost use Rattle.passage_fields.specs.Fields.{taken_apart};
ghost use Rattle.passage_checker.specs.Outcome.{pass_outcome, checked, check_outcome, judged, judged_keyed};

use passage_fields::Fields;
use refusals::Refused;

// One pass over a letter, which every call makes: it is taken apart and its root worked out. Refuses as `check` does. It is opened at each call, and
// the two lists are lent by themselves, as in `passage_fields::take_apart`: only so is no whole answer zeroed and copied (bench/passage.sh).
#[inline(always)]
pub fn pass(mode: &[u8; 36], size: u64, root: &[u8], letter: &[u8]) -> Result<Fields, Refused>
    ensures { taken_apart result ≡ pass_outcome (digest_in mode.now) size root.now letter.now }
{
    let n = shape::leaf_count(size)?;
    if root.len() != 32 {
        return Err(Refused::RootLength);
    }
    let f = passage_fields::take_front(size, n, letter)?;
    let indexes = f.indexes;
    let starts = f.places;
    let is = &indexes[..f.count];
    let places = &starts[..f.count];
    let made = passage_root::root_of(mode, n, is, letter, places, &letter[f.end..]);
    if letter.len() != f.end + 32 * (made.used as usize) {
        return Err(Refused::LetterLength);
    }
    if wire::differ(root, &made.digest.bytes) {
        return Err(Refused::OtherRoot);
    }
    Ok(f)
}

// Checks a letter: how many records it has. Refuses by 1, 12, 7 (under 10), 8, 19; for each record 7, 19, 5, 3, 7; then 7 (exact), 9.
pub fn check(mode: &[u8; 36], size: u64, root: &[u8], letter: &[u8]) -> Result<u64, Refused>
    ensures { checked result ≡ check_outcome (digest_in mode.now) size root.now letter.now }
{
    let f = pass(mode, size, root, letter)?;
    Ok(f.count as u64)
}

// The verdict for trusted size, root and one letter in a row. 12 for under 40 bytes. The checker of one record's letter has its own, by its own check:
// one for both would be handed the check, and say no more.
pub fn judge(mode: &[u8; 36], input: &[u8]) -> Result<(), Refused>
    ensures { number_in result ≡ judged (digest_in mode.now) input.now }
{
    if input.len() < 40 {
        return Err(Refused::RootLength);
    }
    let size = wire::read8(input, 0);
    check(mode, size, &input[8..40], &input[40..])?;
    Ok(())
}

// The verdict for a key, and then trusted size, root and one letter in a row. 24 for under 32 bytes. Its own too, by its own `judge`.
pub fn judge_keyed(input: &[u8]) -> Result<(), Refused>
    ensures { number_in result ≡ judged_keyed input.now }
{
    if input.len() < 32 {
        return Err(Refused::KeyLength);
    }
    let mode = digest::keyed(&input[..32])?;
    judge(&mode, &input[32..])
}
