// Letters of small logs, each refusal of the writer and of the checker, one letter changed in every place, and the shortcuts that
// lose a match, to be compared with the second program's.
#![tactic(auto)]

mod changes;
mod checks;
mod letters;
mod logs;
mod shortcuts;
mod writes;

fn main(rt: HostRuntime) {
    letters::show_all(&rt);
    writes::show_all(&rt);
    checks::show_all(&rt);
    changes::show_all(&rt);
    shortcuts::show_all(&rt);
}
