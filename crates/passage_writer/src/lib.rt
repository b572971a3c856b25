// The passage letter for a list of indexes, written from a log's nodes.
#![tactic(auto)]

ghost use Rattle.std.specs.Prelude.{◌≡◌, length};
ghost use Rattle.digest.specs.Digest.{digest_in};
ghost use Rattle.wire.specs.Writers.{wrote};
ghost use Rattle.passage_writer.specs.Outcome.{write_outcome};
ghost use Rattle.passage_writer.specs.Steps.{Fitting, Entered};

use refusals::Refused;

// Writes the records behind the letter's head, each behind its index and its length. Returns the place behind them.
fn write_entries(indexes: &[u64], records: &[u8], lengths: &[u32], out: &mut [u8]) -> usize
    requires { Fitting indexes.now records.now lengths.now (length out.old) }
    ensures { Entered indexes.now records.now lengths.now out.old result out.new }
{
    let mut place = passage::HEAD;
    let mut at = 0;
    for (i, &index) in indexes.iter().enumerate() {
        let k = lengths[i];
        let end = at + k as usize;
        wire::write8(out, place, index);
        wire::write4(out, place + 8, k);
        wire::write_run(out, place + passage::FRAME, &records[at..end]);
        place = place + passage::FRAME + k as usize;
        at = end;
    }
    place
}

// Writes the letter for these indexes of a log of this size, with the records at them, joined, and the length of each. Refuses by 1, 19, 16, 5, 3, 4,
// 13, 6.
pub fn write_passage(
    mode: &[u8; 36],
    size: u64,
    indexes: &[u64],
    records: &[u8],
    lengths: &[u32],
    nodes: &[u8],
    out: &mut [u8],
) -> Result<usize, Refused>
    ensures { wrote result out.new
        ≡ write_outcome (digest_in mode.now) size indexes.now records.now lengths.now nodes.now
        out.old }
{
    let n = shape::leaf_count(size)?;
    passage_foresight::foresee(mode, size, n, indexes, records, lengths, nodes)?;
    let digests = passage::count::digest_count(n, indexes) as usize;
    let length = passage::HEAD + passage::FRAME * indexes.len() + records.len() + 32 * digests;
    if out.len() < length {
        return Err(Refused::OutputTooShort);
    }
    wire::write8(out, 0, size);
    wire::write2(out, 8, indexes.len() as u32);
    let end = write_entries(indexes, records, lengths, out);
    passage_digests::write_digests(mode, out, end, nodes, n, indexes);
    Ok(length)
}
