// Sizes, positions, leaf counts and merges at the edges, to be compared with the second program's.
#![tactic(auto)]

use refusals::Refused;
use std::io;

// The line of a call: its label, what it is given, the number and the value, which is 0 on a refusal.
fn show(rt: &impl Print, label: &str, given: u64, answer: Result<u64, Refused>) -> io::Result<()> {
    let number = refusals::number(&answer);
    let value = answer.unwrap_or_default();
    println!(rt; "{label} {given}: {number} {value}")
}

// The lines of a call, for each of these numbers.
fn show_each<F: Fn(u64) -> Result<u64, Refused>>(
    rt: &impl Print,
    label: &str,
    given: &[u64],
    call: F,
) -> io::Result<()>
    requires { F.IsAlwaysCallable call }
{
    for &n in given {
        show(rt, label, n, call(n))?;
    }
    Ok(())
}

// Sizes of 0 to 8 leaves, of the most, and of one more; leaves 0 to 8, the last, and the one behind it; sizes 0 to 9, the largest, and the number
// behind it.
fn show_calls(rt: &impl Print) -> io::Result<()> {
    let leaves = [0, 1, 2, 3, 4, 5, 6, 7, 8, 4294967296, 4294967297];
    show_each(rt, "size", &leaves, shape::size_of)?;
    let indexes = [0, 1, 2, 3, 4, 5, 6, 7, 8, 4294967295, 4294967296];
    show_each(rt, "position", &indexes, shape::leaf_position)?;
    let sizes = [0, 1, 2, 3, 4, 5, 6, 7, 8, 9, 8589934591, 8589934592];
    show_each(rt, "leaves", &sizes, shape::leaf_count)
}

// The parents that an append to 0 to 16 leaves writes.
fn show_merges(rt: &impl Print) -> io::Result<()> {
    for n in 0..17 {
        let merges = shape::merges(n);
        println!(rt; "merges {n}: {merges}")?;
    }
    Ok(())
}

fn main(rt: HostRuntime) -> io::Result<()> {
    show_calls(&rt)?;
    show_merges(&rt)
}
