// What a request for a passage is refused with before anything is written.
#![tactic(auto)]

ghost use Rattle.std.specs.Prelude.{◌≡◌, ◌*◌, length};
ghost use Rattle.refusals.specs.Numbers.{number_in};
ghost use Rattle.order.specs.Order.{◌under◌, first_number};
ghost use Rattle.digest.specs.Digest.{digest_in};
ghost use Rattle.records.specs.Records.{cut};
ghost use Rattle.nodes.specs.Nodes.{node_in};
ghost use Rattle.passage_foresight.specs.Order.{limits_order, foreign_order, foreseen_order};
ghost use Rattle.passage_foresight.specs.Steps.{OneEach};

use refusals::Refused;

// The first of 5 and 3 that a record meets, by its index and its length. By `zip` the loop's invariant did not close.
fn limits_refusal(n: u64, indexes: &[u64], lengths: &[u32]) -> Result<(), Refused>
    requires { length lengths.now ≡ length indexes.now }
    ensures { number_in result ≡ first_number (limits_order n indexes.now lengths.now) }
{
    for (k, &index) in indexes.iter().enumerate() {
        if n <= index {
            return Err(Refused::NoSuchLeaf);
        }
        if wire::LONGEST_RECORD < lengths[k] as usize {
            return Err(Refused::RecordTooLong);
        }
    }
    Ok(())
}

// 13 where a record's digest is not the leaf at its place.
fn foreign_refusal(
    mode: &[u8; 36],
    indexes: &[u64],
    records: &[u8],
    lengths: &[u32],
    nodes: &[u8],
) -> Result<(), Refused>
    requires { OneEach indexes.now records.now lengths.now }
    ensures { number_in result ≡ first_number (foreign_order (digest_in mode.now) (node_in nodes.now) indexes.now
        (cut lengths.now records.now)) }
{
    let mut at = 0;
    for (i, &index) in indexes.iter().enumerate() {
        let end = at + lengths[i] as usize;
        let own = digest::digest_of(mode, &records[at..end]);
        if letter::leaf::foreign(nodes, index, own) {
            return Err(Refused::OtherRecord);
        }
        at = end;
    }
    Ok(())
}

// The first of 19, 16, 5, 3, 4 and 13 that applies to a request, to a log of this size with n leaves.
pub fn foresee(
    mode: &[u8; 36],
    size: u64,
    n: u64,
    indexes: &[u64],
    records: &[u8],
    lengths: &[u32],
    nodes: &[u8],
) -> Result<(), Refused>
    ensures { number_in result
        ≡ first_number (foreseen_order (digest_in mode.now) (node_in nodes.now) (length nodes.now under 32 * size) n
        indexes.now records.now lengths.now) }
{
    passage::request::request_refusal(indexes)?;
    records::sums_refusal(indexes.len(), records.len(), lengths)?;
    limits_refusal(n, indexes, lengths)?;
    if (nodes.len() as u64) / 32 < size {
        return Err(Refused::NodesTooShort);
    }
    foreign_refusal(mode, indexes, records, lengths, nodes)
}
