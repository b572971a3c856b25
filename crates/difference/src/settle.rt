// The answer, once nothing but 6 is left to refuse, and the pair written.
ghost use Rattle.std.specs.Prelude.{◌≡◌, length};
ghost use Rattle.wire.specs.Slices.{written, bit};
ghost use Rattle.difference.specs.Outcome.{found, settled};
ghost use Rattle.inputs.specs.Inputs.{bytes_of, told};

use crate::Finding;
use inputs::{Input, Unequal};
use refusals::Refused;

// Writes an input, 64 bytes, over the first 64 of d. A write that does not fit wholly changes nothing.
pub fn put(d: &mut [u8], x: Input)
    ensures { (length (bytes_of x) ≡ 64) × (d.new ≡ written 0 (bytes_of x) d.old) }
{
    if d.len() < 64 {
        return;
    }
    wire::write_digest(d, 0, x.left.bytes);
    wire::write_digest(d, 32, x.right.bytes);
}

// The answer by the first difference of the inputs and, with none, by whether the records are apart. Refuses by 6, whatever the outcome. Of a pair
// ours goes into the first buffer, theirs into the second, which are lent apart, as C lends them.
pub fn settle(
    highest: Option<Unequal>,
    apart: bool,
    first: &mut [u8],
    second: &mut [u8],
) -> Result<Finding, Refused>
    ensures { found result first.new second.new
        ≡ settled (told highest) (bit apart) first.old second.old }
{
    if first.len() < 64 || second.len() < 64 {
        return Err(Refused::OutputTooShort);
    }
    match highest {
        Some(pair) => {
            put(first, pair.ours);
            put(second, pair.theirs);
            Ok(Finding::Pair)
        }
        None if apart => Ok(Finding::Records),
        None => Ok(Finding::Same),
    }
}
