// Where values lie at the start: bits 0 and 1, the word 0, the first memory. Indexes of records, not kinds: they go into operands as they are.
pub const BIT0: u64 = 0;

pub const BIT1: u64 = 1;

pub const WORD0: u64 = 2;

pub const MEMORY: u64 = 3;
