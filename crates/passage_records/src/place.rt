// A record that is handed out.
ghost use Rattle.std.specs.Prelude.{◌<◌};

// A record of a letter: its index, and where the record lies in the letter, which is never at its start. A letter of one record has `Fields` of the same
// three, which are that letter taken apart: here they are one record of many.
#[derive(Clone, Copy, PartialEq, Eq)]
pub struct Handed {
    pub index: u64,
    pub start: usize,
    pub length: usize,
    pub ghost behind: { 0 < start },
}
