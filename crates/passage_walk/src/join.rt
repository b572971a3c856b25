// A fork above two parts of a walk.
ghost use Rattle.digest.specs.Digest.{digest_in};
ghost use Rattle.passage_walk.specs.Steps.{Joinable, Joined};

use crate::Part;
use inputs::Input;
use inputs::fork::Fork;

// Two parts of a walk with the fork above them: on top of it stands within a peak the node, above the peaks the digest of the two sides.
pub(crate) fn join(mode: &[u8; 36], nodes: &[u8], at: Fork, left: Part, right: Part) -> Part
    requires { Joinable left right }
    ensures { Joined (digest_in mode.now) nodes.now at.half at.rest at.mid left right result }
{
    let ours = Input {
        left: left.log,
        right: right.log,
    };
    let theirs = Input {
        left: left.letter,
        right: right.letter,
    };
    let apart = inputs::inputs_differ(ours, theirs);
    let letter = digest::digest_of_pair(mode, theirs.left, theirs.right);
    let up = inputs::digest_beside(mode, ours, apart, letter);
    let log = at.top(nodes).unwrap_or(up);
    let here = inputs::digests_differ(log, up);
    let below = left.difference.or(right.difference);
    Part {
        log,
        letter,
        asked: left.asked + right.asked,
        used: left.used + right.used,
        broken: here | left.broken | right.broken,
        difference: inputs::higher(below, apart, ours, theirs),
    }
}
