// The keeper as C sees it: include/keeper.h has the same calls. Each returns a number of RULES 2, and a refusal leaves every lent byte and
// every result variable as it was.
#![tactic(auto)]

ghost use Rattle.std.specs.Prelude.{◌≡◌};
ghost use Rattle.shape.specs.Sizes.{size_answer, position_answer, count_answer};
ghost use Rattle.kept.specs.Kept.{filled};
ghost use Rattle.keeper.specs.Calls.{answered, over, append_left, Grown, append_call, append_many_call, digest_call, root_call};
ghost use Rattle.keeper.specs.Modes.{plain_call, keyed_call};

use evidence_log::Appended;
use refusals::Refused;

// The plain mode.
#[unsafe(no_mangle)]
pub extern "C" fn keeper_mode_plain(mode: &mut [u8; 36]) -> u32
    ensures { filled result mode.new ≡ plain_call }
{
    *mode = digest::plain();
    0
}

// The keyed mode of a key.
#[unsafe(no_mangle)]
pub extern "C" fn keeper_mode_keyed(key: &[u8], mode: &mut [u8; 36]) -> u32
    ensures { filled result mode.new ≡ keyed_call key.now mode.old }
{
    kept::put(digest::keyed(key), mode)
}

// The digest of bytes, into the first 32 bytes of out.
#[unsafe(no_mangle)]
pub extern "C" fn keeper_digest(mode: &[u8; 36], bytes: &[u8], out: &mut [u8]) -> u32
    ensures { filled result out.new ≡ digest_call mode.now bytes.now out.old }
{
    if out.len() < 32 {
        return u32::from(Refused::OutputTooShort);
    }
    kept::hand(digest::digest_of(mode, bytes).bytes, out)
}

// The size of so many leaves.
#[unsafe(no_mangle)]
pub extern "C" fn keeper_size(leaves: u64, size: &mut u64) -> u32
    ensures { answered result size.new ≡ over size.old (size_answer leaves) }
{
    kept::put(shape::size_of(leaves), size)
}

// The position of a leaf.
#[unsafe(no_mangle)]
pub extern "C" fn keeper_leaf_position(index: u64, position: &mut u64) -> u32
    ensures { answered result position.new ≡ over position.old (position_answer index) }
{
    kept::put(shape::leaf_position(index), position)
}

// The leaf count of a size.
#[unsafe(no_mangle)]
pub extern "C" fn keeper_leaf_count(size: u64, leaves: &mut u64) -> u32
    ensures { answered result leaves.new ≡ over leaves.old (count_answer size) }
{
    kept::put(shape::leaf_count(size), leaves)
}

// Puts the size and the hash count of an append behind their pointers, where it is done: its number.
fn put_grown(answer: Result<Appended, Refused>, new_size: &mut u64, hashes: &mut u64) -> u32
    ensures { Grown answer new_size.old hashes.old result new_size.new hashes.new }
{
    match answer {
        Ok(grown) => {
            let Appended {
                size,
                hashes: count,
            } = grown;
            *new_size = size;
            *hashes = count;
            0
        }
        Err(why) => u32::from(why),
    }
}

// One more record: the new nodes behind the old, the new size and the hash count.
#[unsafe(no_mangle)]
pub extern "C" fn keeper_append(
    mode: &[u8; 36],
    size: u64,
    rec: &[u8],
    nodes: &mut [u8],
    new_size: &mut u64,
    hashes: &mut u64,
) -> u32
    ensures { append_left result new_size.new hashes.new nodes.new
        ≡ append_call mode.now size rec.now nodes.old new_size.old hashes.old }
{
    let answer = evidence_log::append(mode, size, rec, nodes);
    put_grown(answer, new_size, hashes)
}

// Many records, joined together, with the length of each: all of them, or none.
#[unsafe(no_mangle)]
pub extern "C" fn keeper_append_many(
    mode: &[u8; 36],
    size: u64,
    records: &[u8],
    lengths: &[u32],
    nodes: &mut [u8],
    new_size: &mut u64,
    hashes: &mut u64,
) -> u32
    ensures { append_left result new_size.new hashes.new nodes.new
        ≡ append_many_call mode.now size records.now lengths.now nodes.old
        new_size.old hashes.old }
{
    let answer = batch::append_many(mode, size, records, lengths, nodes);
    put_grown(answer, new_size, hashes)
}

// The root, into the first 32 bytes of out.
#[unsafe(no_mangle)]
pub extern "C" fn keeper_root(mode: &[u8; 36], size: u64, nodes: &[u8], out: &mut [u8]) -> u32
    ensures { filled result out.new ≡ root_call mode.now size nodes.now out.old }
{
    let answer = evidence_log::root(mode, size, nodes);
    match answer {
        Ok(root) => kept::hand(root.bytes, out),
        Err(why) => u32::from(why), // no root is written
    }
}
