// What many records in one append are refused with, by numbers alone, before anything is written.
#![tactic(auto)]

ghost use Rattle.std.specs.Prelude.{◌≡◌, true};
ghost use Rattle.order.specs.Order.{first_number};
ghost use Rattle.refusals.specs.Numbers.{number_in};
ghost use Rattle.batch_foresight.specs.Foresight.{one_order, or_else, foresight};
ghost use Rattle.batch_foresight.specs.Steps.{Ample};

use refusals::Refused;

// What a record of k bytes is refused with, by numbers alone, where it makes m leaves.
fn refusal(room: u64, m: u64, k: usize) -> Result<(), Refused>
    ensures { number_in result ≡ first_number (one_order room m k) }
{
    let grown = shape::size_of(m)?;
    if wire::LONGEST_RECORD < k {
        return Err(Refused::RecordTooLong);
    }
    if room < 32 * grown {
        return Err(Refused::NodesTooShort);
    }
    Ok(())
}

// Whether so many leaves are within the limit and have room for their nodes.
fn ample(room: u64, m: u64) -> bool
    ensures { result ≡ true → Ample room m }
{
    match shape::size_of(m) {
        Ok(grown) => 32 * grown <= room,
        Err(_) => false,
    }
}

// What a record is refused with behind records that may have been refused, which then stays. Where its leaf is known to fit, its length decides.
fn refusal_after(
    before: Result<(), Refused>,
    fits: bool,
    room: u64,
    m: u64,
    k: usize,
) -> Result<(), Refused>
    requires { fits ≡ true → Ample room m }
    ensures { number_in result ≡ or_else (number_in before) (first_number (one_order room m k)) }
{
    before?;
    if !fits {
        return refusal(room, m, k);
    }
    if wire::LONGEST_RECORD < k {
        return Err(Refused::RecordTooLong);
    }
    Ok(())
}

// All tests in one pass over the lengths of records that are to stand behind n leaves: 16, or the first refusal that they meet one after the other.
// What is left of the bytes is counted down, so that no sum wraps. Sizes grow with the leaves: where all fit, none is asked for its own.
pub fn foresee(bytes: usize, room: u64, n: u64, lengths: &[u32]) -> Result<(), Refused>
    ensures { number_in result ≡ foresight bytes room n lengths.now }
{
    // more than 2^32 leaves are refused as 2^32 are
    let base = n.min(shape::MOST_LEAVES);
    let fits = ample(room, base + lengths.len() as u64);
    let mut left = bytes;
    let mut met = Ok(());
    for (i, &k) in lengths.iter().enumerate() {
        let k = k as usize;
        if left < k {
            return Err(Refused::WrongLengths);
        }
        left -= k;
        met = refusal_after(met, fits, room, base + i as u64 + 1, k);
    }
    if left == 0 {
        met
    } else {
        Err(Refused::WrongLengths)
    }
}
