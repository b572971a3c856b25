// Letters of small logs compared with their logs, a letter at the edges of the finder's order, and lists of inputs that are given, to be compared
// with the second program's. No letter here gets "pair" or "records", since that takes a collision: both are met with the given lists.
#![tactic(auto)]

mod edges;
mod letters;
mod lists;
mod logs;

fn main(rt: HostRuntime) {
    letters::show_all(&rt);
    edges::show_all(&rt);
    lists::show_all(&rt);
}
