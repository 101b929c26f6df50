// Where the fields of a trace step stand in its bytes; the last three are of the cell that the previous step wrote.
pub const THREAD: usize = 0;

pub const NUMBER: usize = 1;

pub const PC: usize = 2;

pub const ARGUMENT: usize = 4;

pub const MODE: usize = 6;

pub const FULL: usize = 7;

pub const ACCU: usize = 8;

pub const MEM: usize = 10;

pub const ADR: usize = 12;

pub const VAL: usize = 14;

pub const WROTE: usize = 16;

pub const ADDRESS: usize = 18;

pub const VALUE: usize = 20;
