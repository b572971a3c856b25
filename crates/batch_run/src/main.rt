// Batches over one buffer, plain and keyed: lists of 0 to 40 lengths, then each refusal, to be compared with the second program's.
#![tactic(auto)]

mod given;
mod lists;
mod rows;

use runs::lines::say;

// All lines in a mode, after its name.
fn show_mode(rt: &impl Print, name: &[u8], mode: &[u8; 36]) {
    say(rt, name);
    lists::show_all(rt, mode);
    rows::show_all(rt, mode);
}

fn main(rt: HostRuntime) {
    show_mode(&rt, b"plain\n", &digest::plain());
    if let Ok(keyed) = digest::keyed(b"whats the Elvish word for friend") {
        show_mode(&rt, b"keyed\n", &keyed);
    }
}
