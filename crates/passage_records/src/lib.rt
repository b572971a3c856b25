// The records of a passage letter that is checked, handed back: one of them, or all.
#![tactic(auto)]

ghost use Rattle.std.specs.Prelude.{◌≡◌, length};
ghost use Rattle.digest.specs.Digest.{digest_in};
ghost use Rattle.wire.specs.Lent.{lent};
ghost use Rattle.passage.specs.Bytes.{count_in};
ghost use Rattle.passage_records.specs.Outcome.{handed, There, entry_outcome, record_part, listed, entries_outcome};
ghost use Rattle.passage_records.specs.Steps.{Listable, Listed};

pub mod place;

use passage_checker::pass;
use passage_fields::stated_at;
pub use place::Handed;
use refusals::Refused;

// Record k of an accepted letter, counted from 0; none past the last. Refuses as `check` does. Both lists are read by themselves, here and in
// `entries`, as in `passage_checker::pass`.
pub fn entry(
    mode: &[u8; 36],
    size: u64,
    root: &[u8],
    letter: &[u8],
    k: u64,
) -> Result<Option<Handed>, Refused>
    ensures part { handed result ≡ entry_outcome (digest_in mode.now) size root.now letter.now k }
    ensures there { There (count_in letter.now) k result }
{
    let f = pass(mode, size, root, letter)?;
    if f.count as u64 <= k {
        return Ok(None);
    }
    let indexes = f.indexes;
    let places = f.places;
    let j = k as usize;
    let at = places[j];
    Ok(Some(Handed {
        index: indexes[j],
        start: at + passage::FRAME,
        length: stated_at(letter, at),
    }))
}

// The index, start and length that `entry` hands back: beside a refusal, and past the last, all 0.
pub fn place_of(answer: Result<Option<Handed>, Refused>) -> (u64, usize, usize)
    ensures index { result.0 ≡ (handed answer).index }
    ensures start { result.1 ≡ (handed answer).start }
    ensures length { result.2 ≡ (handed answer).length }
{
    match answer {
        Ok(Some(e)) => (e.index, e.start, e.length),
        _ => (0, 0, 0),
    }
}

// Record k of an accepted letter, as a part of it; past the last, and for a refusal, the empty part at the start.
pub fn record_in<'a>(mode: &[u8; 36], size: u64, root: &[u8], letter: &'a [u8], k: u64) -> &'a [u8]
    ensures { lent result ≡ record_part (digest_in mode.now) size root.now letter.entry k }
{
    let Some(e) = entry(mode, size, root, letter, k).unwrap_or(None) else {
        return &letter[..0];
    };
    &letter[e.start..e.start + e.length]
}

// The index, start and length of each record at these places, into the first places of three slices, which are lent apart, as C
// lends them.
fn list(
    letter: &[u8],
    given: &[u64],
    places: &[usize],
    indexes: &mut [u64],
    starts: &mut [u64],
    lengths: &mut [u64],
)
    requires { Listable letter.now given.now places.now (length indexes.old) (length starts.old) (length lengths.old) }
    ensures { Listed letter.now given.now places.now
        indexes.old starts.old lengths.old indexes.new starts.new lengths.new }
{
    indexes[..given.len()].copy_from_slice(given);
    for (k, &at) in places.iter().enumerate() {
        starts[k] = (at + passage::FRAME) as u64;
        lengths[k] = stated_at(letter, at) as u64;
    }
}

// The index, start and length of every record of an accepted letter, into three slices, and how many records there are. Refuses as `check` does, then
// by 6 for a slice with fewer places than there are records.
pub fn entries(
    mode: &[u8; 36],
    size: u64,
    root: &[u8],
    letter: &[u8],
    indexes: &mut [u64],
    starts: &mut [u64],
    lengths: &mut [u64],
) -> Result<u64, Refused>
    ensures { listed result indexes.new starts.new lengths.new
        ≡ entries_outcome (digest_in mode.now) size root.now letter.now
        indexes.old starts.old lengths.old }
{
    let f = pass(mode, size, root, letter)?;
    let count = f.count;
    if indexes.len() < count || starts.len() < count || lengths.len() < count {
        return Err(Refused::OutputTooShort);
    }
    let given = f.indexes;
    let places = f.places;
    list(
        letter,
        &given[..count],
        &places[..count],
        indexes,
        starts,
        lengths,
    );
    Ok(count as u64)
}
