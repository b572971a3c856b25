// Digests in parts, plain and keyed: inputs cut in many ways, then states with counts that are off, at the limit and with anything in them, to be
// compared with the second program's.
#![tactic(auto)]

mod cuts;
mod lines;
mod states;

use runs::lines::say;

fn main(rt: HostRuntime) {
    let plain = parts::begin(&digest::plain());
    let key = digest::keyed(b"whats the Elvish word for friend");
    let keyed = parts::begin(&digest::mode_of(key));
    say(&rt, b"plain\n");
    cuts::show_all(&rt, plain);
    states::show_all(&rt, plain);
    say(&rt, b"keyed\n");
    cuts::show_all(&rt, keyed);
    states::show_all(&rt, keyed);
    say(&rt, b"anything\n");
    states::show_all(&rt, states::any_state(0));
    states::show_all(&rt, states::any_state(2147483648));
}
