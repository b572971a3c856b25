// Many records in one append: all of them, or none.
#![tactic(auto)]

ghost use Rattle.std.specs.Prelude.{◌≡◌, length};
ghost use Rattle.digest.specs.Digest.{digest_in};
ghost use Rattle.records.specs.Records.{total, cut};
ghost use Rattle.evidence_log.specs.Appends.{run};
ghost use Rattle.evidence_log.specs.Outcome.{appended};
ghost use Rattle.batch.specs.Batch.{begun, batch_outcome};
ghost use Rattle.batch.specs.Steps.{Left};

use evidence_log::Appended;
use refusals::Refused;

// Appends record after record; the size at the end.
fn append_each(mode: &[u8; 36], size: u64, records: &[u8], lengths: &[u32], nodes: &mut [u8]) -> u64
    requires { total lengths.now ≡ length records.now }
    ensures { Left (run (digest_in mode.now) (begun size nodes.old) (cut lengths.now records.now))
        result nodes.new }
{
    let mut grown = size;
    let mut rest = records;
    for &k in lengths {
        let (rec, after) = rest.split_at(k as usize);
        if let Ok(a) = evidence_log::append(mode, grown, rec, nodes) {
            grown = a.size;
        }
        rest = after;
    }
    grown
}

// Records joined together, with the length of each, appended as one by one: all of them, or none.
pub fn append_many(
    mode: &[u8; 36],
    size: u64,
    records: &[u8],
    lengths: &[u32],
    nodes: &mut [u8],
) -> Result<Appended, Refused>
    ensures { appended size result nodes.new
        ≡ batch_outcome (digest_in mode.now) size records.now lengths.now nodes.old }
{
    let n = shape::leaf_count(size)?;
    batch_foresight::foresee(records.len(), nodes.len() as u64, n, lengths)?;
    let grown = append_each(mode, size, records, lengths, nodes);
    Ok(Appended {
        size: grown,
        hashes: grown - size,
    })
}
