// A passage letter compared with the log's own nodes and records, in the walk's order and then by rising index.
#![tactic(auto)]

ghost use Rattle.std.specs.Prelude.{◌≡◌};
ghost use Rattle.digest.specs.Digest.{digest_in};
ghost use Rattle.findings.specs.Outcome.{named};
ghost use Rattle.passage_finder.specs.Outcome.{find_outcome};

mod against;
mod own;

use findings::Named;
use refusals::Refused;

// Compares a letter with the log's own nodes, and with its records at the indexes that the letter names, joined together. Refuses by 1, 10, 4, then
// as checking does from 7 with the root of its own nodes, then by 16, by 3 and 13 for each of the log's own records, 14, 6. The buffers change only
// for a pair: the log's input goes over the first 64 bytes of one, the letter's over those of the other.
pub fn find(
    mode: &[u8; 36],
    size: u64,
    nodes: &[u8],
    records: &[u8],
    lengths: &[u32],
    letter: &[u8],
    first: &mut [u8],
    second: &mut [u8],
) -> Result<Named, Refused>
    ensures { named result first.new second.new
        ≡ find_outcome (digest_in mode.now) size nodes.now records.now lengths.now letter.now
        first.old second.old }
{
    let n = shape::leaf_count(size)?;
    if n == 0 {
        return Err(Refused::EmptyLog);
    }
    if (nodes.len() as u64) < 32 * size {
        return Err(Refused::NodesTooShort);
    }
    let f = passage_fields::take_apart(size, n, letter)?;
    against::against(mode, nodes, n, f, records, lengths, letter, first, second)
}
