// A log's nodes in a lent buffer: append and root.
#![tactic(auto)]

ghost use Rattle.std.specs.Prelude.{◌≡◌, []};
ghost use Rattle.digest.specs.Digest.{digest_in};
ghost use Rattle.evidence_log.specs.Outcome.{appended, append_outcome, rooted, root_outcome};

use digest::Digest;
use refusals::Refused;

// An append of one record, or of many: the new size, and how many digests were worked out.
#[derive(Clone, Copy, PartialEq, Eq)]
pub struct Appended {
    pub size: u64,
    pub hashes: u64,
}

// One more record: the new nodes behind the old.
pub fn append(mode: &[u8; 36], size: u64, rec: &[u8], nodes: &mut [u8]) -> Result<Appended, Refused>
    ensures { appended size result nodes.new ≡ append_outcome (digest_in mode.now) size rec.now nodes.old }
{
    let n = shape::leaf_count(size)?;
    if n == shape::MOST_LEAVES {
        return Err(Refused::LogFull);
    }
    if wire::LONGEST_RECORD < rec.len() {
        return Err(Refused::RecordTooLong);
    }
    let put = new_nodes::put_new(mode, size, shape::merges(n), rec, nodes);
    let hashes = put.ok_or(Refused::NodesTooShort)?;
    Ok(Appended {
        size: size + hashes,
        hashes,
    })
}

// The size and the hash count that an append returns, of one record or of many: beside a refusal the size that it was given, and 0.
pub fn returned(size: u64, answer: Result<Appended, Refused>) -> Appended
    ensures size { result.size ≡ (appended size answer []).size }
    ensures hashes { result.hashes ≡ (appended size answer []).hashes }
{
    answer.unwrap_or(Appended { size, hashes: 0 })
}

// The root of a log.
pub fn root(mode: &[u8; 36], size: u64, nodes: &[u8]) -> Result<Digest, Refused>
    ensures { rooted result ≡ root_outcome (digest_in mode.now) size nodes.now }
{
    let n = shape::leaf_count(size)?;
    if n == 0 {
        return Err(Refused::EmptyLog);
    }
    if (nodes.len() as u64) < 32 * size {
        return Err(Refused::NodesTooShort);
    }
    Ok(nodes::fold_from(mode, nodes, n, 0))
}
