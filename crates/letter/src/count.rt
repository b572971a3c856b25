// How many items a letter has.
ghost use Rattle.std.specs.Prelude.{◌≡◌, ◌≤◌, length};
ghost use Rattle.shape.specs.Way.{way_in};
ghost use Rattle.letter.specs.Items.{item_count};

// The turns on the way to leaf i of n, n at most 2^h.
fn turns(h: u32, n: u64, i: u64) -> u32
    requires { h ≤ 64 }
    ensures { result ≡ length (way_in h n i) }
{
    if h == 0 {
        return 0;
    }
    let g = h - 1;
    let half = shape::power(g);
    if n <= half {
        return turns(g, n, i);
    }
    if i < half {
        return turns(g, half, i) + 1;
    }
    turns(g, n - half, i - half) + 1
}

// The number of items for index i of n leaves.
pub fn item_count(n: u64, i: u64) -> u32
    ensures { result ≡ item_count n i }
{
    turns(shape::height(n), n, i)
}
