// What a passage letter is: the request tested, its indexes parted between subtrees, its digests counted.
#![tactic(auto)]

pub mod count;
pub mod request;

// What stands before the records: size and their number.
pub const HEAD: usize = 10;

// What stands before the bytes of a record: its index and its length.
pub const FRAME: usize = 12;

// The most records of a letter.
pub const MOST_RECORDS: usize = 256;
