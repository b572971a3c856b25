// The letter of a record, written from a log's nodes.
#![tactic(auto)]

ghost use Rattle.std.specs.Prelude.{◌≡◌};
ghost use Rattle.digest.specs.Digest.{digest_in};
ghost use Rattle.wire.specs.Writers.{wrote};
ghost use Rattle.letter_writer.specs.Outcome.{write_outcome};

use refusals::Refused;

// Writes the letter for an index of a log of this size, with the record at that index. Refuses by 1, 5, 3, 4, 13, 6.
pub fn write_letter(
    mode: &[u8; 36],
    size: u64,
    index: u64,
    rec: &[u8],
    nodes: &[u8],
    out: &mut [u8],
) -> Result<usize, Refused>
    ensures { wrote result out.new
        ≡ write_outcome (digest_in mode.now) size index rec.now nodes.now out.old }
{
    let n = shape::leaf_count(size)?;
    if n <= index {
        return Err(Refused::NoSuchLeaf);
    }
    let stated = rec.len();
    if wire::LONGEST_RECORD < stated {
        return Err(Refused::RecordTooLong);
    }
    if (nodes.len() as u64) < 32 * size {
        return Err(Refused::NodesTooShort);
    }
    let own = digest::digest_of(mode, rec);
    if letter::leaf::foreign(nodes, index, own) {
        return Err(Refused::OtherRecord);
    }
    let items = letter::count::item_count(n, index) as usize;
    let length = letter::HEAD + stated + 32 * items;
    if out.len() < length {
        return Err(Refused::OutputTooShort);
    }
    wire::write8(out, 0, size);
    wire::write8(out, 8, index);
    wire::write4(out, 16, stated as u32);
    wire::write_run(out, letter::HEAD, rec);
    letter_items::write_items(mode, out, letter::HEAD + stated, nodes, n, index);
    Ok(length)
}
