// A letter checked against a size and a root that the caller trusts.
#![tactic(auto)]

ghost use Rattle.std.specs.Prelude.{◌≡◌};
ghost use Rattle.refusals.specs.Numbers.{number_in};
ghost use Rattle.digest.specs.Digest.{digest_in};
ghost use Rattle.wire.specs.Lent.{lent};
ghost use Rattle.letter_checker.specs.Outcome.{checked, check_outcome, record_part, judged, judged_keyed};

use letter::Fields;
use refusals::Refused;

// Checks a letter: its index, and where the record lies in it. Refuses by 1, 12, 7 (under 20), 8, 5, 3, 7 (exact), 9.
pub fn check(mode: &[u8; 36], size: u64, root: &[u8], letter: &[u8]) -> Result<Fields, Refused>
    ensures { checked result ≡ check_outcome (digest_in mode.now) size root.now letter.now }
{
    let n = shape::leaf_count(size)?;
    if root.len() != 32 {
        return Err(Refused::RootLength);
    }
    let f = letter::take_apart(size, n, letter)?;
    let end = f.start + f.length;
    let made = letter_root::root_of(mode, n, f.index, &letter[f.start..end], &letter[end..]);
    if wire::differ(root, &made.bytes) {
        return Err(Refused::OtherRoot);
    }
    Ok(f)
}

// The record of an accepted letter, as a part of it; for a refusal an empty part at the start.
pub fn record_in<'a>(mode: &[u8; 36], size: u64, root: &[u8], letter: &'a [u8]) -> &'a [u8]
    ensures { lent result ≡ record_part (digest_in mode.now) size root.now letter.entry }
{
    match check(mode, size, root, letter) {
        Ok(c) => &letter[c.start..c.start + c.length],
        Err(_) => &letter[..0],
    }
}

// Judges trusted size, root and one letter in a row. 12 for under 40 bytes. The passages' checker has its own, by its own check: one for both would
// be handed the check, and say no more.
pub fn judge(mode: &[u8; 36], input: &[u8]) -> Result<(), Refused>
    ensures { number_in result ≡ judged (digest_in mode.now) input.now }
{
    if input.len() < 40 {
        return Err(Refused::RootLength);
    }
    let size = wire::read8(input, 0);
    check(mode, size, &input[8..40], &input[40..])?;
    Ok(())
}

// Judges a key, and then trusted size, root and one letter in a row. 24 for under 32 bytes.
pub fn judge_keyed(input: &[u8]) -> Result<(), Refused>
    ensures { number_in result ≡ judged_keyed input.now }
{
    if input.len() < 32 {
        return Err(Refused::KeyLength);
    }
    let mode = digest::keyed(&input[..32])?;
    judge(&mode, &input[32..])
}
