// A passage letter of the right form compared with the nodes, and then with the log's own records.
ghost use Rattle.std.specs.Prelude.{◌≡◌};
ghost use Rattle.digest.specs.Digest.{digest_in};
ghost use Rattle.nodes.specs.Nodes.{node_in};
ghost use Rattle.findings.specs.Outcome.{named};
ghost use Rattle.passage_finder.specs.Steps.{Formed, comparing};

use crate::own;
use findings::Named;
use passage_fields::Fields;
use refusals::Refused;

// Compares a letter that was taken apart with the nodes of n leaves, and then with the log's own records. Refuses by 9, then by 16, by 3 and 13 for
// each of the log's own records, 14, 6.
pub(crate) fn against(
    mode: &[u8; 36],
    nodes: &[u8],
    n: u64,
    f: Fields,
    records: &[u8],
    lengths: &[u32],
    letter: &[u8],
    first: &mut [u8],
    second: &mut [u8],
) -> Result<Named, Refused>
    requires { Formed n letter.now f }
    ensures { named result first.new second.new
        ≡ comparing (digest_in mode.now) (node_in nodes.now) n records.now lengths.now
        letter.now first.old second.old }
{
    let is = &f.indexes[..f.count];
    let places = &f.places[..f.count];
    let leaves = passage_root::leaf_digests(mode, letter, places);
    let w = passage_walk::walk_of(mode, nodes, n, is, &leaves, &letter[f.end..]);
    if inputs::digests_differ(w.log, w.letter) {
        return Err(Refused::OtherRoot);
    }
    let apart = own::own_records(mode, nodes, is, places, records, lengths, letter, &leaves)?;
    if w.broken {
        return Err(Refused::BrokenNode);
    }
    findings::settle(w.difference, apart, first, second)
}
