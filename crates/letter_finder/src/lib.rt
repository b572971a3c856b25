// A letter compared with the log's own nodes, from the root down.
#![tactic(auto)]

ghost use Rattle.std.specs.Prelude.{◌≡◌};
ghost use Rattle.digest.specs.Digest.{digest_in};
ghost use Rattle.difference.specs.Outcome.{found};
ghost use Rattle.letter_finder.specs.Outcome.{find_outcome};

mod against;

use difference::Finding;
use refusals::Refused;

// Compares a letter with the log's own nodes. Refuses by 1, 10, 4, then as checking does from 7 with the root of its own nodes, then by 3 and 13
// for the log's own record, 14, 6. The buffers change only for a pair: the log's input goes over the first 64 bytes of one, the letter's over those
// of the other.
pub fn find(
    mode: &[u8; 36],
    size: u64,
    nodes: &[u8],
    rec: &[u8],
    letter: &[u8],
    first: &mut [u8],
    second: &mut [u8],
) -> Result<Finding, Refused>
    ensures { found result first.new second.new
        ≡ find_outcome (digest_in mode.now) size nodes.now rec.now letter.now
        first.old second.old }
{
    let n = shape::leaf_count(size)?;
    if n == 0 {
        return Err(Refused::EmptyLog);
    }
    if (nodes.len() as u64) < 32 * size {
        return Err(Refused::NodesTooShort);
    }
    let f = letter::take_apart(size, n, letter)?;
    let end = f.start + f.length;
    let theirs = &letter[f.start..end];
    let items = &letter[end..];
    against::against(mode, nodes, n, f.index, rec, theirs, items, first, second)
}
