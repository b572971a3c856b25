// The request: a strictly rising list of indexes, 1 to 256 of them.
ghost use Rattle.std.specs.Prelude.{◌≡◌};
ghost use Rattle.order.specs.Order.{first_number};
ghost use Rattle.refusals.specs.Numbers.{number_in};
ghost use Rattle.passage.specs.Request.{request_order};

use crate::MOST_RECORDS;
use refusals::Refused;

// 19 for a list that is no request.
pub fn request_refusal(is: &[u64]) -> Result<(), Refused>
    ensures { number_in result ≡ first_number (request_order is.now) }
{
    let Some((&first, rest)) = is.split_first() else {
        return Err(Refused::NotRising);
    };
    if MOST_RECORDS < is.len() {
        return Err(Refused::NotRising);
    }
    let mut last = first;
    for &i in rest {
        if i <= last {
            return Err(Refused::NotRising);
        }
        last = i;
    }
    Ok(())
}
