// Where the folded tree forks.
ghost use Rattle.std.specs.Prelude.{◌≡◌, ◌^◌, ◌≤◌, ◌<◌};

use digest::Digest;

// A fork of `half` leaves on the left and `rest` on the right, whose right side begins at position mid. No sum at it wraps.
#[derive(Clone, Copy)]
pub struct Fork {
    pub half: u64,
    pub rest: u64,
    pub mid: u64,
    pub ghost some: { 0 < half },
    pub ghost few: { half ≤ 2 ^ 32 },
    pub ghost past: { 0 < mid },
    pub ghost near: { mid ≤ 2 ^ 34 },
}

impl Fork {
    ghost use Rattle.inputs.specs.Forks.{there, top_in};

    // The node on top, where the fork lies within a peak. Above the peaks none stands there.
    pub fn top(self, nodes: &[u8]) -> Option<Digest>
        ensures { there result ≡ top_in nodes.now self.half self.rest self.mid }
    {
        if self.rest != self.half {
            return None;
        }
        Some(nodes::node_at(nodes, self.mid + (2 * self.half - 1)))
    }
}
