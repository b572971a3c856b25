// Letters and their finder as C sees them: include/keeper.h has the same calls. Each returns a number of RULES 2, and a refusal leaves every lent
// byte and every result variable as it was.
#![tactic(auto)]

ghost use Rattle.std.specs.Prelude.{◌≡◌};
ghost use Rattle.kept.specs.Kept.{write_left};
ghost use Rattle.letter_c.specs.Letters.{letter_write_call, check_left, letter_check_call};
ghost use Rattle.letter_c.specs.Finder.{find_left, find_call};

// The letter of an index, into the first bytes of out.
#[unsafe(no_mangle)]
pub extern "C" fn keeper_letter_write(
    mode: &[u8; 36],
    size: u64,
    index: u64,
    rec: &[u8],
    nodes: &[u8],
    out: &mut [u8],
    length: &mut usize,
) -> u32
    ensures { write_left result length.new out.new
        ≡ letter_write_call mode.now size index rec.now nodes.now out.old length.old }
{
    kept::put(
        letter_writer::write_letter(mode, size, index, rec, nodes, out),
        length,
    )
}

// A letter checked against a trusted size and root: its index, and where in it its record lies.
#[unsafe(no_mangle)]
pub extern "C" fn keeper_letter_check(
    mode: &[u8; 36],
    size: u64,
    root: &[u8],
    letter: &[u8],
    index: &mut u64,
    record_at: &mut usize,
    record_len: &mut usize,
) -> u32
    ensures { check_left result index.new record_at.new record_len.new
        ≡ letter_check_call mode.now size root.now letter.now
        index.old record_at.old record_len.old }
{
    match letter_checker::check(mode, size, root, letter) {
        Ok(f) => {
            *index = f.index;
            *record_at = f.start;
            *record_len = f.length;
            0
        }
        Err(why) => u32::from(why), // the letter is not accepted
    }
}

// A letter compared with the log's own nodes and the record that the log has there: what is found, and for a pair the log's input into the first 64
// bytes of one buffer, the letter's into those of the other.
#[unsafe(no_mangle)]
pub extern "C" fn keeper_find(
    mode: &[u8; 36],
    size: u64,
    nodes: &[u8],
    rec: &[u8],
    letter: &[u8],
    first: &mut [u8],
    second: &mut [u8],
    found: &mut u32,
) -> u32
    ensures { find_left result found.new first.new second.new
        ≡ find_call mode.now size nodes.now rec.now letter.now
        first.old second.old found.old }
{
    match letter_finder::find(mode, size, nodes, rec, letter, first, second) {
        Ok(finding) => {
            *found = u32::from(finding);
            0
        }
        Err(why) => u32::from(why), // nothing is found
    }
}
