// Stored nodes, written.
#![tactic(auto)]

ghost use Rattle.std.specs.Prelude.{◌≡◌};
ghost use Rattle.digest.specs.Digest.{digest_in};
ghost use Rattle.wire.specs.Writers.{wrote};
ghost use Rattle.stored_writer.specs.Outcome.{leaf_outcome, inner_outcome};

use refusals::Refused;

// Writes a leaf, its digest worked out from the record. Refuses by 3, 6.
pub fn write_leaf(mode: &[u8; 36], rec: &[u8], out: &mut [u8]) -> Result<usize, Refused>
    ensures { wrote result out.new ≡ leaf_outcome (digest_in mode.now) rec.now out.old }
{
    let n = rec.len();
    if wire::LONGEST_RECORD < n {
        return Err(Refused::RecordTooLong);
    }
    let length = 37 + n;
    if out.len() < length {
        return Err(Refused::OutputTooShort);
    }
    let digest = digest::digest_of(mode, rec);
    wire::write_byte(out, 0, 1);
    wire::write_digest(out, 1, digest.bytes);
    wire::write4(out, 33, n as u32);
    wire::write_run(out, stored::RECORD_AT, rec);
    Ok(length)
}

// Writes an inner node. Refuses by 6.
pub fn write_inner(digest: [u8; 32], out: &mut [u8]) -> Result<usize, Refused>
    ensures { wrote result out.new ≡ inner_outcome digest out.old }
{
    if out.len() < 33 {
        return Err(Refused::OutputTooShort);
    }
    wire::write_byte(out, 0, 0);
    wire::write_digest(out, 1, digest);
    Ok(33)
}
