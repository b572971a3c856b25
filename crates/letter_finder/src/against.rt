// A letter of the right form compared with the nodes.
ghost use Rattle.std.specs.Prelude.{◌≡◌, ◌^◌, ◌≤◌, ◌<◌, false};
ghost use Rattle.digest.specs.Digest.{digest_in};
ghost use Rattle.wire.specs.Slices.{bit};
ghost use Rattle.shape.specs.Seen.{broken};
ghost use Rattle.nodes.specs.Nodes.{node_in};
ghost use Rattle.difference.specs.Outcome.{found};
ghost use Rattle.letter_finder.specs.Steps.{against_outcome};

use difference::Finding;
use digest::Digest;
use refusals::Refused;

// Whether a node on the path, within its peak, isn't the digest of its two children. Where no input differs, each is, and the path is not looked at
// again.
fn way_broken(mode: &[u8; 36], nodes: &[u8], n: u64, i: u64, apart: bool) -> bool
    requires { (i < n) × (n ≤ 2 ^ 32) × (apart ≡ false → broken (digest_in mode.now) (node_in nodes.now) n i ≡ 0) }
    ensures { bit result ≡ broken (digest_in mode.now) (node_in nodes.now) n i }
{
    apart && letter_walk::broken_to(mode, nodes, n, i)
}

// Compares the record `theirs` and the items of a letter for index i with the nodes of n leaves. Refuses by 9, then by 3 and 13 for the log's own
// record, 14, 6.
pub(crate) fn against(
    mode: &[u8; 36],
    nodes: &[u8],
    n: u64,
    i: u64,
    rec: &[u8],
    theirs: &[u8],
    items: &[u8],
    first: &mut [u8],
    second: &mut [u8],
) -> Result<Finding, Refused>
    requires { (i < n) × (n ≤ 2 ^ 32) }
    ensures { found result first.new second.new
        ≡ against_outcome (digest_in mode.now) nodes.now n i rec.now theirs.now items.now
        first.old second.old }
{
    let leaf = digest::digest_of(mode, theirs);
    let w = letter_walk::walk_to(mode, nodes, items, n, i, leaf);
    if inputs::digests_differ(w.log, w.letter) {
        return Err(Refused::OtherRoot);
    }
    if wire::LONGEST_RECORD < rec.len() {
        return Err(Refused::RecordTooLong);
    }
    let apart = wire::differ(rec, theirs);
    let own = inputs::record_beside(mode, rec, apart, leaf);
    if letter::leaf::foreign(nodes, i, own) {
        return Err(Refused::OtherRecord);
    }
    if way_broken(mode, nodes, n, i, w.difference.is_some()) {
        return Err(Refused::BrokenNode);
    }
    difference::settle::settle(w.difference, apart, first, second)
}
