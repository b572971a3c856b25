// Stored nodes as C sees them: include/keeper.h has the same calls. Each returns a number of RULES 2, and a refusal leaves every lent byte and every
// result variable as it was.
#![tactic(auto)]

ghost use Rattle.std.specs.Prelude.{◌≡◌};
ghost use Rattle.kept.specs.Kept.{write_left};
ghost use Rattle.stored_c.specs.Nodes.{store_leaf_call, store_inner_call, read_left, read_call};

use refusals::Refused;
use stored::Node;

// The stored leaf of a record, into the first bytes of out.
#[unsafe(no_mangle)]
pub extern "C" fn keeper_store_leaf(
    mode: &[u8; 36],
    rec: &[u8],
    out: &mut [u8],
    length: &mut usize,
) -> u32
    ensures { write_left result length.new out.new
        ≡ store_leaf_call mode.now rec.now out.old length.old }
{
    kept::put(stored_writer::write_leaf(mode, rec, out), length)
}

// The stored inner node of a digest, into the first bytes of out.
#[unsafe(no_mangle)]
pub extern "C" fn keeper_store_inner(digest: &[u8], out: &mut [u8], length: &mut usize) -> u32
    ensures { write_left result length.new out.new
        ≡ store_inner_call digest.now out.old length.old }
{
    if digest.len() != 32 {
        return u32::from(Refused::RootLength);
    }
    kept::put(
        stored_writer::write_inner(wire::read_digest(digest, 0), out),
        length,
    )
}

// A stored node read: its kind, its digest into the first 32 bytes of out, and where in the bytes its record lies.
#[unsafe(no_mangle)]
pub extern "C" fn keeper_read_node(
    mode: &[u8; 36],
    bytes: &[u8],
    kind: &mut u32,
    out: &mut [u8],
    record_at: &mut usize,
    record_len: &mut usize,
) -> u32
    ensures { read_left result kind.new out.new record_at.new record_len.new
        ≡ read_call mode.now bytes.now kind.old out.old record_at.old
        record_len.old }
{
    let reading = match stored::read_node(mode, bytes) {
        Ok(reading) => reading,
        Err(why) => return u32::from(why),
    };
    if out.len() < 32 {
        return u32::from(Refused::OutputTooShort);
    }
    wire::write_digest(out, 0, reading.digest);
    match reading.node {
        Node::Inner => {
            *kind = 0;
            *record_at = 0;
            *record_len = 0;
            0
        }
        Node::Leaf(n) => {
            *kind = 1;
            *record_at = stored::RECORD_AT;
            *record_len = n;
            0
        }
    }
}
