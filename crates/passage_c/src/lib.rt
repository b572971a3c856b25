// The passages as C sees them: include/keeper.h has the same calls. Each returns a number of RULES 2, and a refusal leaves every lent byte and every
// result variable as it was.
#![tactic(auto)]

ghost use Rattle.std.specs.Prelude.{◌≡◌};
ghost use Rattle.kept.specs.Kept.{write_left};
ghost use Rattle.passage_c.specs.Calls.{write_passage_call, check_left, check_call, entry_left, entry_call, entries_left, entries_call, find_left, find_call};

// The passage letter of rising indexes, into the first bytes of out.
#[unsafe(no_mangle)]
pub extern "C" fn keeper_passage_write(
    mode: &[u8; 36],
    size: u64,
    indexes: &[u64],
    records: &[u8],
    lengths: &[u32],
    nodes: &[u8],
    out: &mut [u8],
    length: &mut usize,
) -> u32
    ensures { write_left result length.new out.new
        ≡ write_passage_call mode.now size indexes.now records.now lengths.now nodes.now
        out.old length.old }
{
    let answer = passage_writer::write_passage(mode, size, indexes, records, lengths, nodes, out);
    kept::put(answer, length)
}

// A passage letter checked against a trusted size and root: how many records it has.
#[unsafe(no_mangle)]
pub extern "C" fn keeper_passage_check(
    mode: &[u8; 36],
    size: u64,
    root: &[u8],
    letter: &[u8],
    count: &mut u64,
) -> u32
    ensures { check_left result count.new
        ≡ check_call mode.now size root.now letter.now count.old }
{
    kept::put(passage_checker::check(mode, size, root, letter), count)
}

// Record k of a passage letter that is checked: its index, and where in the letter it lies; 0, 0, 0 past the last.
#[unsafe(no_mangle)]
pub extern "C" fn keeper_passage_entry(
    mode: &[u8; 36],
    size: u64,
    root: &[u8],
    letter: &[u8],
    k: u64,
    index: &mut u64,
    record_at: &mut usize,
    record_len: &mut usize,
) -> u32
    ensures { entry_left result index.new record_at.new record_len.new
        ≡ entry_call mode.now size root.now letter.now k
        index.old record_at.old record_len.old }
{
    match passage_records::entry(mode, size, root, letter, k) {
        Ok(Some(e)) => {
            *index = e.index;
            *record_at = e.start;
            *record_len = e.length;
            0
        }
        Ok(None) => {
            *index = 0;
            *record_at = 0;
            *record_len = 0;
            0
        }
        Err(why) => u32::from(why), // no record is handed out
    }
}

// All records of a passage letter that is checked: every index, start and length into the first places of three slices.
#[unsafe(no_mangle)]
pub extern "C" fn keeper_passage_entries(
    mode: &[u8; 36],
    size: u64,
    root: &[u8],
    letter: &[u8],
    indexes: &mut [u64],
    starts: &mut [u64],
    lengths: &mut [u64],
    count: &mut u64,
) -> u32
    ensures { entries_left result count.new indexes.new starts.new lengths.new
        ≡ entries_call mode.now size root.now letter.now
        indexes.old starts.old lengths.old count.old }
{
    let answer = passage_records::entries(mode, size, root, letter, indexes, starts, lengths);
    kept::put(answer, count)
}

// A passage letter compared with the log's own nodes and the records that the log has there: what is found, the index that "records" names, and for a
// pair the log's input into the first 64 bytes of one buffer, the letter's into those of the other.
#[unsafe(no_mangle)]
pub extern "C" fn keeper_passage_find(
    mode: &[u8; 36],
    size: u64,
    nodes: &[u8],
    records: &[u8],
    lengths: &[u32],
    letter: &[u8],
    first: &mut [u8],
    second: &mut [u8],
    found: &mut u32,
    index: &mut u64,
) -> u32
    ensures { find_left result found.new index.new first.new second.new
        ≡ find_call mode.now size nodes.now records.now lengths.now letter.now
        first.old second.old found.old index.old }
{
    match passage_finder::find(mode, size, nodes, records, lengths, letter, first, second) {
        Ok(named) => {
            *found = u32::from(named);
            *index = named.index();
            0
        }
        Err(why) => u32::from(why),
    }
}
