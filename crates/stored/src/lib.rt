// Stored nodes, read.
//   inner: byte 00, digest; 33 bytes
//   leaf: byte 01, digest, record length (4 bytes, big-endian), record; 37 + length bytes
#![tactic(auto)]

ghost use Rattle.std.specs.Prelude.{◌≡◌, ◌+◌, length};
ghost use Rattle.wire.specs.Lent.{lent};
ghost use Rattle.digest.specs.Digest.{digest_in};
ghost use Rattle.stored.specs.Nodes.{stated_in, record_in};
ghost use Rattle.stored.specs.Read.{read_off, read_outcome, record_part};

use refusals::Refused;

// A kind of node.
#[derive(Clone, Copy, Debug, PartialEq, Eq)]
pub enum Node {
    Inner,
    // The length of its record.
    Leaf(usize),
}

// A node that was read, and the digest that stands in it.
#[derive(Clone, Copy, PartialEq, Eq)]
pub struct Reading {
    pub node: Node,
    pub digest: [u8; 32],
}

// Where the record of a leaf begins.
pub const RECORD_AT: usize = 37;

// Reads a node. Refuses by 11 for under 33 bytes, unknown flag, an inner node not of 33, a leaf under 37; then by 3; then by 11 for the
// exact length; then by 18 for the digest of a leaf.
pub fn read_node(mode: &[u8; 36], bytes: &[u8]) -> Result<Reading, Refused>
    ensures { read_off result ≡ read_outcome (digest_in mode.now) bytes.now }
{
    let length = bytes.len();
    if length < 33 {
        return Err(Refused::NotANode);
    }
    let flag = bytes[0];
    if 1 < flag {
        return Err(Refused::NotANode);
    }
    if flag == 0 {
        if length != 33 {
            return Err(Refused::NotANode);
        }
        return Ok(Reading {
            node: Node::Inner,
            digest: wire::read_digest(bytes, 1),
        });
    }
    if length < 37 {
        return Err(Refused::NotANode);
    }
    let stated = wire::read4(bytes, 33) as usize;
    if wire::LONGEST_RECORD < stated {
        return Err(Refused::RecordTooLong);
    }
    if length != 37 + stated {
        return Err(Refused::NotANode);
    }
    let worked = worked_out(mode, bytes);
    if wire::differ(&worked, &bytes[1..33]) {
        return Err(Refused::OtherDigest);
    }
    Ok(Reading {
        node: Node::Leaf(stated),
        digest: wire::read_digest(bytes, 1),
    })
}

// The digest that a read hands back: the one in the node, or beside a refusal 32 zeros.
pub fn digest_named(read: Result<Reading, Refused>) -> [u8; 32]
    ensures { result ≡ (read_off read).digest }
{
    match read {
        Ok(reading) => reading.digest,
        Err(_) => [0; 32],
    }
}

// The digest of a leaf's record, which in a leaf of the exact length is all that stands behind the record length.
fn worked_out(mode: &[u8; 36], bytes: &[u8]) -> [u8; 32]
    requires { length bytes.now ≡ 37 + stated_in bytes.now }
    ensures { result ≡ digest_in mode.now (record_in bytes.now) }
{
    digest::digest_of(mode, &bytes[RECORD_AT..]).bytes
}

// The record of a leaf, as a part of the bytes read; for an inner node and for a refusal an empty part at the start.
pub fn record_of<'a>(mode: &[u8; 36], bytes: &'a [u8]) -> &'a [u8]
    ensures { lent result ≡ record_part (digest_in mode.now) bytes.entry }
{
    let Ok(reading) = read_node(mode, bytes) else {
        return &bytes[..0];
    };
    match reading.node {
        Node::Inner => &bytes[..0],
        Node::Leaf(n) => &bytes[RECORD_AT..RECORD_AT + n],
    }
}
