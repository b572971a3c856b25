// The flags of a compression that a chunk does not set by itself. What is handed in to one is a byte.
use chunks::{CHUNK_END, CHUNK_START};

pub(crate) const PARENT: u32 = 4;

pub const ROOT: u8 = 8;

pub(crate) const KEYED: u8 = 16;

// One block that is a chunk, and the root.
pub(crate) const ONLY_BLOCK: u32 = CHUNK_START + CHUNK_END + ROOT as u32;
