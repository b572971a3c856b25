// The counts that a state stores, which the total decides.
ghost use Rattle.std.specs.Prelude.{◌≡◌};
ghost use Rattle.order.specs.Order.{first_number};
ghost use Rattle.refusals.specs.Numbers.{number_in};
ghost use Rattle.parts_rule.specs.Subtrees.{finished};
ghost use Rattle.parts_rule.specs.Counts.{held_of};
ghost use Rattle.subtrees.specs.Counts.{count_order};

use refusals::Refused;

// The most bytes in all: 2^40.
pub const MOST: u64 = 1099511627776;

// How many chunks are finished: one is when a byte follows it.
pub fn chunks_before(total: u64) -> u64
    ensures { result ≡ finished total }
{
    if total == 0 { 0 } else { (total - 1) / 1024 }
}

// How many bytes the block holds.
fn held_after(total: u64) -> u64
    ensures { result ≡ held_of total }
{
    if total == 0 { 0 } else { (total - 1) % 64 + 1 }
}

// Refuses a total above the limit, and counts that contradict it.
pub fn counted(total: u64, held: u64, stacked: u32) -> Result<(), Refused>
    ensures { number_in result ≡ first_number (count_order total held stacked) }
{
    if MOST < total {
        return Err(Refused::PartsTooLong);
    }
    if held != held_after(total) {
        return Err(Refused::PartsTooLong);
    }
    if stacked != u64::count_ones(chunks_before(total)) {
        return Err(Refused::PartsTooLong);
    }
    Ok(())
}
