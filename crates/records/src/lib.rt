// Records joined together, with a list of their lengths: whether there are as many lengths as there should be, and whether they add up.
#![tactic(auto)]

ghost use Rattle.std.specs.Prelude.{◌≡◌};
ghost use Rattle.order.specs.Order.{first_number};
ghost use Rattle.refusals.specs.Numbers.{number_in};
ghost use Rattle.records.specs.Records.{sums_order};

use refusals::Refused;

// 16 where there are not so many lengths, or where they do not add up to so many bytes. What is left of the bytes is counted down, so that no sum
// wraps.
pub fn sums_refusal(count: usize, bytes: usize, lengths: &[u32]) -> Result<(), Refused>
    ensures { number_in result ≡ first_number (sums_order count bytes lengths.now) }
{
    if lengths.len() != count {
        return Err(Refused::WrongLengths);
    }
    let mut left = bytes;
    for &k in lengths {
        let k = k as usize;
        if left < k {
            return Err(Refused::WrongLengths);
        }
        left -= k;
    }
    if left == 0 {
        Ok(())
    } else {
        Err(Refused::WrongLengths)
    }
}
