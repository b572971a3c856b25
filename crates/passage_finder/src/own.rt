// The log's own records beside the letter's, by rising index.
ghost use Rattle.std.specs.Prelude.{◌≡◌};
ghost use Rattle.refusals.specs.Numbers.{number_in};
ghost use Rattle.order.specs.Order.{first_number};
ghost use Rattle.digest.specs.Digest.{digest_in};
ghost use Rattle.nodes.specs.Nodes.{node_in};
ghost use Rattle.passage_finder.specs.Steps.{one_order, LeafBeside, Sooner, own_off, Beside, own_outcome};

use digest::Digest;
use refusals::Refused;

// What one of the log's own records is refused with at its index.
fn record_refusal(
    mode: &[u8; 36],
    nodes: &[u8],
    i: u64,
    rec: &[u8],
    apart: bool,
    leaf: Digest,
) -> Result<(), Refused>
    requires { LeafBeside (digest_in mode.now) apart leaf.bytes rec.now }
    ensures { number_in result ≡ first_number (one_order (digest_in mode.now) (node_in nodes.now) i rec.now) }
{
    if wire::LONGEST_RECORD < rec.len() {
        return Err(Refused::RecordTooLong);
    }
    let own = inputs::record_beside(mode, rec, apart, leaf);
    if letter::leaf::foreign(nodes, i, own) {
        return Err(Refused::OtherRecord);
    }
    Ok(())
}

// The index of the first that differs, with one record more, which is at index i: a record before that differs stays the first.
fn sooner(first: Option<u64>, apart: bool, i: u64) -> Option<u64>
    ensures { Sooner first apart i result }
{
    if apart { first.or(Some(i)) } else { first }
}

// The log's own records, joined together, each in turn at the index and beside the letter's record that stand in the same place: the index of the
// first that differs, if one does. Refuses by 16, then by 3 and 13 for each.
pub(crate) fn own_records(
    mode: &[u8; 36],
    nodes: &[u8],
    is: &[u64],
    places: &[usize],
    records: &[u8],
    lengths: &[u32],
    letter: &[u8],
    leaves: &[u8],
) -> Result<Option<u64>, Refused>
    requires { Beside (digest_in mode.now) is.now places.now letter.now leaves.now }
    ensures { own_off result ≡ own_outcome (digest_in mode.now) (node_in nodes.now) is.now places.now
        records.now lengths.now letter.now }
{
    records::sums_refusal(is.len(), records.len(), lengths)?;
    let mut first = None;
    let mut at = 0;
    for (k, &i) in is.iter().enumerate() {
        let end = at + lengths[k] as usize;
        let rec = &records[at..end];
        let apart = wire::differ(rec, passage_fields::record_at(letter, places[k]));
        let leaf = nodes::node_at(leaves, k as u64);
        record_refusal(mode, nodes, i, rec, apart, leaf)?;
        first = sooner(first, apart, i);
        at = end;
    }
    Ok(first)
}
